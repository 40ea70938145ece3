ghost use Rattle.std.specs.Prelude.{◌≡◌, ◌↔◌, ◌+◌, ◌*◌, ◌^◌, ◌<◌, true, length, take, slice_get};
ghost use Rattle.pgn_journal.specs.QueueUse.{IsFloorFor};
ghost use Rattle.pgn_ledger.specs.Places.{most_cells};
ghost use Rattle.pgn_ledger.specs.QueueUse.{is_below, is_cut_short, is_held, is_own_floor, is_stopped, is_stopped_at};

use crate::packing::{entry_length, fits, is_page_start, put_all};
use pgn_base::{Format, Note, SessionNo, Xid};
use pgn_journal::{Fate, Tx};

// The notifications end where a page begins, or the next does not fit on the rest of the page.
fn is_stopped(format: Format, at: u64, queued: &[Note], next: &Note) -> bool
    requires { at + most_cells * length queued.now < 2 ^ 60 }
    ensures { result ≡ is_stopped format at queued.now next.now }
{
    let end = put_all(format, at, queued);
    is_page_start(end) || !fits(end, entry_length(format, next))
}

// The same of the first few notifications of a transaction, if there are more.
fn is_stopped_at(format: Format, at: u64, notes: &[Note], queued: usize) -> bool
    requires { at + most_cells * length notes.now < 2 ^ 60 }
    ensures { result ≡
        is_stopped_at format at (take queued notes.now) (slice_get notes.now queued) }
{
    if queued >= notes.len() {
        return false;
    }
    is_stopped(format, at, &notes[..queued], &notes[queued])
}

/// A transaction that begins at a place was aborted with so many notifications queued, and not all, where the next did not fit.
pub fn is_cut_short(format: Format, at: u64, queued: u32, tx: &Tx) -> bool
    requires { at + most_cells * length tx.now.notes < 2 ^ 60 }
    ensures { result ≡ is_cut_short format at queued tx.now }
{
    match tx.fate {
        Fate::Committed => false,
        Fate::Aborted => {
            tx.queued == queued && is_stopped_at(format, at, tx.notes.as_slice(), queued as usize)
        }
    }
}

/// No session holds the floor exactly where it is at the number itself.
pub fn is_held(holder: Option<SessionNo>, floor: Xid, at: Xid) -> bool
    ensures { result ≡ is_held holder floor at }
{
    match holder {
        None => floor == at,
        Some(_) => floor != at,
    }
}

// The floor is not above a mark.
fn is_below(mark: &Option<Xid>, floor: &Xid) -> bool
    ensures { result ≡ is_below mark.now floor.now }
{
    match mark {
        None => true,
        Some(own) => floor.get() <= own.get(),
    }
}

// The session is no holder, or its mark is the floor.
fn is_own_floor(
    session: &SessionNo,
    mark: &Option<Xid>,
    floor: &Xid,
    holder: &Option<SessionNo>,
) -> bool
    ensures { result ≡ is_own_floor session.now mark.now floor.now holder.now }
{
    let Some(holder) = holder else {
        return true;
    };
    match mark {
        None => holder.get() != session.get(),
        Some(own) => holder.get() != session.get() || own.get() == floor.get(),
    }
}

/// A floor is not above the session's own mark, and the session holds it only where it is that mark.
#[tactic(auto, using(crate::proofs::QueueLaws::floor_is))]
pub fn is_floor_for(
    session: &SessionNo,
    mark: &Option<Xid>,
    floor: &Xid,
    holder: &Option<SessionNo>,
) -> bool
    ensures { (result ≡ true) ↔ IsFloorFor session.now mark.now floor.now holder.now }
{
    is_below(mark, floor) && is_own_floor(session, mark, floor, holder)
}

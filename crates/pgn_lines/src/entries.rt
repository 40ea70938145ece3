ghost use Rattle.std.specs.Prelude.{ℕ, MatchOption};
ghost use Rattle.pgn_lines.specs.Shown.{Shows, Unshown};
ghost use Rattle.pgn_lines.specs.declared.shown.Shown.TheVariants as show;

use crate::fields::one_short;
use crate::numbers::{after, session_then, short, short_then, xid_then};
use crate::shown::Shown;
use pgn_base::FIRST_XID;

/// The head of a journal.
pub fn journal(line: &str) -> Option<Shown>
    ensures { MatchOption result
        ((entries : ℕ) → Unshown line.now (show.Journal entries))
        (Shows line.now) }
{
    let entries = one_short(line, "journal ")?;
    if entries > u32::MAX - FIRST_XID {
        return None;
    }
    Some(Shown::Journal { entries })
}

/// The first line of an entry that committed.
pub fn committed(line: &str) -> Option<Shown>
    ensures { MatchOption result
        ((xid session notes : ℕ) → Unshown line.now (show.Committed xid session notes))
        (Shows line.now) }
{
    let Some(start) = after(line, "xid ") else {
        return None;
    };
    let Some(xid) = xid_then(start, "session ") else {
        return None;
    };
    let Some(session) = session_then(xid.1, "commit ") else {
        return None;
    };
    let Some(notes) = short(session.1) else {
        return None;
    };
    Some(Shown::Committed {
        xid: xid.0,
        session: session.0,
        notes,
    })
}

/// The first line of an entry that was aborted.
pub fn aborted(line: &str) -> Option<Shown>
    ensures { MatchOption result
        ((xid session queued notes : ℕ) → Unshown line.now (show.Aborted xid session queued notes))
        (Shows line.now) }
{
    let Some(start) = after(line, "xid ") else {
        return None;
    };
    let Some(xid) = xid_then(start, "session ") else {
        return None;
    };
    let Some(session) = session_then(xid.1, "abort ") else {
        return None;
    };
    let Some(queued) = short_then(session.1, "of ") else {
        return None;
    };
    let Some(notes) = short(queued.1) else {
        return None;
    };
    Some(Shown::Aborted {
        xid: xid.0,
        session: session.0,
        queued: queued.0,
        notes,
    })
}

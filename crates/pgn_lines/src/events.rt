ghost use Rattle.std.specs.Prelude.{◌≡◌, ℕ, Option, IfSome, MatchOption};
ghost use Rattle.pgn_lines.specs.Fields.{NotFull, floor_text, full_text, stand_text};
ghost use Rattle.pgn_lines.specs.Shown.{IsFull, IsLong, IsSession, IsShort, IsXid, Shows, Unshown};
ghost use Rattle.pgn_lines.specs.declared.shown.Shown.TheVariants as show;

use crate::fields::holder;
use crate::numbers::{after, long_then, short_then, xid_then};
use crate::shown::Shown;
use pgn_base::{Full, SessionNo, Xid};

/// The full queue that a line tells of.
pub fn full_of(line: &str) -> Option<Full>
    ensures { MatchOption result
        (NotFull line.now)
        (λ full. IsFull full
        × (full_text full.xid full.queued full.head_page full.floor_mark full.floor_page full.holder
        ≡ line.now)) }
{
    let Some(start) = after(line, "+full ") else {
        return None;
    };
    let Some(xid) = xid_then(start, "queued ") else {
        return None;
    };
    let Some(stand) = stand_of(xid.1) else {
        return None;
    };
    Some(Full {
        xid: xid.0,
        queued: stand.queued,
        head_page: stand.head_page,
        floor_mark: stand.mark,
        floor_page: stand.page,
        holder: stand.holder,
    })
}

// How a full queue stands: how many notifications were queued, the head's page, and the floor's mark, page and holder.
#[derive(Clone, Copy)]
struct Stand {
    queued: u32,
    head_page: u64,
    mark: Xid,
    page: u64,
    holder: Option<SessionNo>,
}

fn stand_of(text: &str) -> Option<Stand>
    ensures { MatchOption result
        ((queued head mark page : ℕ) (holder : Option ℕ) → IsShort queued → IsLong head → IsXid mark
        → IsLong page → IfSome holder IsSession → stand_text queued head mark page holder ≡ text.now → ⊥)
        (λ stand. IsShort stand.queued × IsLong stand.head_page × IsXid stand.mark × IsLong stand.page
        × IfSome stand.holder IsSession
        × (stand_text stand.queued stand.head_page stand.mark stand.page stand.holder ≡ text.now)) }
{
    let Some(queued) = short_then(text, "head ") else {
        return None;
    };
    let Some(head_page) = long_then(queued.1, "floor ") else {
        return None;
    };
    let Some(floor) = floor_of(head_page.1) else {
        return None;
    };
    Some(Stand {
        queued: queued.0,
        head_page: head_page.0,
        mark: floor.mark,
        page: floor.page,
        holder: floor.holder,
    })
}

// The floor of a full queue.
#[derive(Clone, Copy)]
struct Floor {
    mark: Xid,
    page: u64,
    holder: Option<SessionNo>,
}

fn floor_of(text: &str) -> Option<Floor>
    ensures { MatchOption result
        ((mark page : ℕ) (holder : Option ℕ) → IsXid mark → IsLong page
        → IfSome holder IsSession → floor_text mark page holder ≡ text.now → ⊥)
        (λ floor. IsXid floor.mark × IsLong floor.page × IfSome floor.holder IsSession
        × (floor_text floor.mark floor.page floor.holder ≡ text.now)) }
{
    let Some(mark) = xid_then(text, "page ") else {
        return None;
    };
    let Some(page) = long_then(mark.1, "holder ") else {
        return None;
    };
    let Some(holder) = holder(page.1) else {
        return None;
    };
    Some(Floor {
        mark: mark.0,
        page: page.0,
        holder,
    })
}

/// Where the queue's usage was measured.
pub fn measured(line: &str) -> Option<Shown>
    ensures { MatchOption result
        ((at floor : ℕ) (holder : Option ℕ) → Unshown line.now (show.Measured at floor holder))
        (Shows line.now) }
{
    let Some(start) = after(line, "+usage ") else {
        return None;
    };
    let Some(at) = xid_then(start, "floor ") else {
        return None;
    };
    let Some(floor_mark) = xid_then(at.1, "holder ") else {
        return None;
    };
    let Some(holder) = holder(floor_mark.1) else {
        return None;
    };
    Some(Shown::Measured {
        at: at.0,
        floor_mark: floor_mark.0,
        holder,
    })
}

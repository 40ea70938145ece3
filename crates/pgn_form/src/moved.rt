ghost use Rattle.std.specs.Prelude.{◌≡◌, ◌≤◌, ◌<◌, ◌+◌, ◌^◌, IfSome};
ghost use Rattle.pgn_form.specs.Places.{Fits, entries_from, entry_from, free_from, moved, notes_from, within_from};
ghost use Rattle.pgn_form.specs.declared.place.Place.TheVariants as at;
ghost use Rattle.pgn_form.specs.declared.place.Within.TheVariants as within;
ghost use Rattle.pgn_lines.specs.Shown.{IsHeld};

use crate::{Place, Within};
use pgn_base::{FIRST_XID, Xid};
use pgn_lines::Shown;

/// Where a line leads by what it shows, if it may stand there.
pub fn moved(place: Place, shown: &Shown) -> Option<Place>
    requires fits { Fits place }
    requires held { IsHeld shown.now }
    ensures moved { result ≡ moved place shown.now }
    ensures fits { IfSome result Fits }
{
    match place {
        Place::Start => match shown {
            Shown::Journal { entries } => Some(entries_from(*entries, FIRST_XID)),
            _ => None,
        },
        Place::Entries { left, next } => match shown {
            Shown::Committed { xid, notes, .. } => entry_from(left, next, *xid, *notes),
            Shown::Aborted { xid, notes, .. } => entry_from(left, next, *xid, *notes),
            _ => None,
        },
        Place::Notes { notes, left, next } => match shown {
            Shown::Sent { .. } => Some(notes_from(notes - 1, left, next)),
            _ => None,
        },
        Place::Sections { .. } => None,
        Place::Inside {
            section,
            begun,
            within,
        } => within_from(section, begun, within, shown),
    }
}

// So many entries are left.
fn entries_from(left: u32, next: u32) -> Place
    requires { left + next < 2 ^ 32 }
    ensures value { result ≡ entries_from left next }
    ensures fits { Fits result }
{
    if left == 0 {
        Place::Sections { section: 0 }
    } else {
        Place::Entries { left, next }
    }
}

// So many notifications of an entry are left, and then so many entries.
fn notes_from(notes: u32, left: u32, next: u32) -> Place
    requires { left + next < 2 ^ 32 }
    ensures value { result ≡ notes_from notes left next }
    ensures fits { Fits result }
{
    if notes == 0 {
        entries_from(left, next)
    } else {
        Place::Notes { notes, left, next }
    }
}

// The first line of an entry, if it is the next.
fn entry_from(left: u32, next: u32, xid: Xid, notes: u32) -> Option<Place>
    requires some { 1 ≤ left }
    requires few { left + next < 2 ^ 32 }
    ensures value { result ≡ entry_from left next xid notes }
    ensures fits { IfSome result Fits }
{
    if xid.get() == next {
        Some(notes_from(notes, left - 1, next + 1))
    } else {
        None
    }
}

// Inside a section.
fn within_from(section: usize, begun: usize, within: Within, shown: &Shown) -> Option<Place>
    requires { section < 2 ^ 32 }
    ensures value { result ≡ within_from section begun within shown.now }
    ensures fits { IfSome result Fits }
{
    match within {
        Within::Free => free_from(section, begun, shown),
        Within::Receiving => match shown {
            Shown::Received { .. } => Some(Place::Inside {
                section,
                begun,
                within,
            }),
            _ => free_from(section, begun, shown),
        },
        Within::Warned => match shown {
            Shown::Tagged { .. } => Some(inside(section, begun)),
            _ => None,
        },
        Within::Measuring => match shown {
            Shown::Pages { .. } => Some(inside(section, begun)),
            _ => None,
        },
    }
}

// Inside a section, where nothing has to go on.
fn free_from(section: usize, begun: usize, shown: &Shown) -> Option<Place>
    requires { section < 2 ^ 32 }
    ensures value { result ≡ free_from section begun shown.now }
    ensures fits { IfSome result Fits }
{
    let within = match shown {
        Shown::Enlist { .. } => Within::Free,
        Shown::Publish { .. } => Within::Free,
        Shown::QueueFull { .. } => Within::Free,
        Shown::Leave => Within::Free,
        Shown::Warn { .. } => Within::Warned,
        Shown::Tagged { .. } => Within::Free,
        Shown::Refuse { .. } => Within::Free,
        Shown::Channel { .. } => Within::Free,
        Shown::Measured { .. } => Within::Measuring,
        Shown::Raise { .. } => Within::Free,
        Shown::Found { .. } => Within::Free,
        Shown::TimedOut { .. } => Within::Free,
        Shown::Read { .. } => Within::Receiving,
        Shown::End { .. } => {
            return Some(Place::Sections {
                section: section + 1,
            });
        }
        _ => return None,
    };
    Some(Place::Inside {
        section,
        begun,
        within,
    })
}

// Inside a section, where nothing has to go on.
fn inside(section: usize, begun: usize) -> Place
    ensures { result ≡ at.Inside section begun within.Free }
{
    Place::Inside {
        section,
        begun,
        within: Within::Free,
    }
}

ghost use Rattle.std.specs.Prelude.{◌≡◌, OnOk, slice_get};
ghost use Rattle.pgn_form.specs.Drafts.{added, entered, in_section, known, noted_of, of_section};

use crate::Place;
use crate::draft::{Draft, Head, Part};
use pgn_base::Seq;
use pgn_journal::Fate;
use pgn_language::Scenario;
use pgn_lines::Shown;
use pgn_model::Item;
use std::alloc::{AllocError, Global};

/// A line that is known beforehand is added: a script line begins, or a section.
pub fn known(scenario: &Scenario, place: Place, draft: &mut Draft) -> Result<(), AllocError>
    ensures { OnOk result (draft.new ≡ known scenario.now place draft.old) }
{
    let Place::Inside { section, begun, .. } = place else {
        return Ok(());
    };
    let Some(part) = scenario.sections.as_slice().get(section) else {
        return Ok(());
    };
    let Some(script) = part.lines.as_slice().get(begun) else {
        return Ok(());
    };
    draft.push(Item::Line { line: script.line })
}

/// What a line shows is added to what has been read up to its place.
pub fn added(
    alloc: Global,
    scenario: &Scenario,
    place: Place,
    draft: &mut Draft,
    shown: Shown,
) -> Result<(), AllocError>
    ensures { OnOk result (draft.new ≡ added scenario.now place draft.old shown) }
{
    match place {
        Place::Entries { .. } => {
            let done = entry(alloc, scenario, draft, &shown);
            drop(shown);
            done
        }
        Place::Notes { notes, .. } => note(scenario, notes, draft, shown),
        Place::Inside { section, .. } => of_section(alloc, scenario, section, draft, shown),
        _ => {
            drop(shown);
            Ok(())
        }
    }
}

// The first line of a transaction.
fn entry(
    alloc: Global,
    scenario: &Scenario,
    draft: &mut Draft,
    shown: &Shown,
) -> Result<(), AllocError>
    ensures { OnOk result (draft.new ≡ entered scenario.now draft.old shown.now) }
{
    let sections = scenario.sections.as_slice();
    match shown {
        Shown::Committed { session, notes, .. } => {
            let head = Head {
                session: *session,
                queued: *notes,
                fate: Fate::Committed,
            };
            draft.entry(sections, *notes, &head, Seq::new(alloc))
        }
        Shown::Aborted {
            session,
            queued,
            notes,
            ..
        } => {
            let head = Head {
                session: *session,
                queued: *queued,
                fate: Fate::Aborted,
            };
            draft.entry(sections, *notes, &head, Seq::new(alloc))
        }
        _ => Ok(()),
    }
}

// A notification of a transaction.
fn note(scenario: &Scenario, notes: u32, draft: &mut Draft, shown: Shown) -> Result<(), AllocError>
    ensures { OnOk result (draft.new ≡ noted_of scenario.now notes draft.old shown) }
{
    match shown {
        Shown::Sent { note } => {
            draft.note(scenario.sections.as_slice(), notes.saturating_sub(1), note)
        }
        other => {
            drop(other);
            Ok(())
        }
    }
}

// A line of a section, or its end.
fn of_section(
    alloc: Global,
    scenario: &Scenario,
    section: usize,
    draft: &mut Draft,
    shown: Shown,
) -> Result<(), AllocError>
    ensures { OnOk result
        (draft.new ≡ of_section (slice_get scenario.now.sections section) draft.old shown) }
{
    match shown {
        Shown::End { mark } => match scenario.sections.as_slice().get(section) {
            Some(part) => draft.end(alloc, part, mark),
            None => Ok(()),
        },
        other => in_section(alloc, draft, other),
    }
}

// A line of a section that is not its end.
fn in_section(alloc: Global, draft: &mut Draft, shown: Shown) -> Result<(), AllocError>
    ensures { OnOk result (draft.new ≡ in_section draft.old shown) }
{
    match shown {
        Shown::Enlist { base, point } => draft.push(Item::Enlist { base, point }),
        Shown::Publish { xid } => draft.push(Item::Publish {
            xid,
            notes: Seq::new(alloc),
        }),
        Shown::QueueFull { full } => draft.push(Item::QueueFull {
            full,
            notes: Seq::new(alloc),
        }),
        Shown::Leave => draft.push(Item::Leave),
        Shown::Warn { warning } => draft.begin(Part::Warned { warning }),
        Shown::Tagged { tag } => draft.tag(tag),
        Shown::Refuse { refusal } => draft.push(Item::Refuse { refusal }),
        Shown::Channel { name } => draft.row(alloc, name),
        Shown::Measured {
            at,
            floor_mark,
            holder,
        } => draft.begin(Part::Measured {
            at,
            floor_mark,
            holder,
        }),
        Shown::Pages { occupied, limit } => draft.pages(occupied, limit),
        Shown::Raise { value } => draft.push(Item::Raise { value }),
        Shown::Found { value } => draft.push(Item::Found { value }),
        Shown::TimedOut { looks } => draft.push(Item::TimedOut { looks }),
        Shown::Read { from, to } => draft.begin(Part::Reads {
            from,
            to,
            got: Seq::new(alloc),
        }),
        Shown::Received { delivery } => draft.receive(delivery),
        other => {
            drop(other);
            Ok(())
        }
    }
}

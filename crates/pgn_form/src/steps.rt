ghost use Rattle.std.specs.Prelude.{IfOk, IfSome, MatchOption, ◌<◌, ◌^◌, length};
ghost use Rattle.pgn_form.specs.Places.{Fits, IsStep};
ghost use Rattle.pgn_form.specs.Drafts.{IsTaken};
ghost use Rattle.pgn_form.specs.declared.place.Place.{Place};
ghost use Rattle.pgn_lines.specs.Shown.{Reads};

use crate::Place;
use crate::added::{added, known};
use crate::draft::Draft;
use crate::moved::moved;
use crate::told::told;
use pgn_language::Scenario;
use pgn_lines::{Shown, read_line};
use std::alloc::{AllocError, Global};
use std::str;

/// Where a line leads from a place, if it may stand there; what it shows is added to what has been read.
#[tactic(auto, using(crate::proofs::StepLaws::no_step))]
pub fn step(
    alloc: Global,
    scenario: &Scenario,
    place: Place,
    draft: &mut Draft,
    line: &[u8],
) -> Result<Option<Place>, AllocError>
    requires fits { Fits place }
    requires few { length scenario.now.sections < 2 ^ 32 }
    ensures value { IfOk result
        (λ next. MatchOption next ((other : Place) → IsStep scenario.now place line.now other → ⊥)
        (λ to. IsTaken scenario.now place draft.old line.now to draft.new)) }
    ensures fits { IfOk result (λ next. IfSome next Fits) }
{
    if let Some(next) = told(alloc, scenario, place, line)? {
        known(scenario, place, draft)?;
        return Ok(Some(next));
    }
    let Some(shown) = shown_by(alloc, line)? else {
        return Ok(None);
    };
    let Some(next) = moved(place, &shown) else {
        drop(shown);
        return Ok(None);
    };
    added(alloc, scenario, place, draft, shown)?;
    Ok(Some(next))
}

// What a line shows; one that is not UTF-8 shows nothing.
#[tactic(auto, using(crate::proofs::Utf8Laws::no_text, crate::proofs::Utf8Laws::read_same))]
fn shown_by(alloc: Global, line: &[u8]) -> Result<Option<Shown>, AllocError>
    ensures { IfOk result (Reads line.now) }
{
    match str::from_utf8(line) {
        Ok(text) => read_line(alloc, text),
        Err(_) => Ok(None),
    }
}

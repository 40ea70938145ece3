ghost use Rattle.std.specs.Prelude.{◌≡◌, ◌+◌, ◌≤◌, length, IfOk};
ghost use Rattle.pgn_base.specs.declared.limits.TheConstants.{INPUT_BYTES_MAX};
ghost use Rattle.pgn_language.specs.Lines.{lines_of};
ghost use Rattle.pgn_language.specs.Inputs.{ReadsAsScenario, IsSound};
ghost use Rattle.pgn_scenario.specs.Steps.{at_start, outcome, steps};

use crate::lines::first_line;
use crate::so_far::SoFar;
use pgn_base::{INPUT_BYTES_MAX, Seed};
use pgn_language::{Scenario, ScenarioFault};
use std::alloc::{AllocError, Global};

/// The scenario that an input reads as, or its one fault. Each input has exactly one reading, so that this says which in both
/// directions: `TooLarge` is first; then the lowest line with a fault wins, with the first of its faults in the order of
/// `ScenarioFault`; `Empty` and `NeverSignalled`, with its lowest line, come only where no line has a fault. Want of memory is the
/// one refusal. Hashes are made with this seed.
pub fn read_scenario(
    alloc: Global,
    seed: Seed,
    bytes: &[u8],
) -> Result<Result<Scenario, ScenarioFault>, AllocError>
    ensures reads { IfOk result (ReadsAsScenario bytes.now) }
    ensures sound { IfOk result (λ reading. IfOk reading IsSound) }
{
    if bytes.len() > INPUT_BYTES_MAX {
        return Ok(Err(ScenarioFault::TooLarge));
    }
    let mut so_far = SoFar::new(alloc, seed);
    let reading = read_all(&mut so_far, alloc, bytes);
    // Dropped here, by a call: what reads may return at each line.
    drop(so_far);
    reading
}

// What an input reads as, of which no line is read so far.
fn read_all(
    so_far: &mut SoFar,
    alloc: Global,
    bytes: &[u8],
) -> Result<Result<Scenario, ScenarioFault>, AllocError>
    requires start { so_far.old ≡ at_start }
    requires short { length bytes.now ≤ INPUT_BYTES_MAX }
    ensures { IfOk result (ReadsAsScenario bytes.now) }
{
    match read_lines(so_far, alloc, bytes)? {
        None => so_far.finish(alloc),
        Some(fault) => Ok(Err(fault)),
    }
}

// Takes the lines of a text, up to the first that has a fault.
fn read_lines(
    so_far: &mut SoFar,
    alloc: Global,
    bytes: &[u8],
) -> Result<Option<ScenarioFault>, AllocError>
    requires { so_far.old.at + length bytes.now ≤ INPUT_BYTES_MAX }
    ensures { IfOk result
        (λ found. outcome found so_far.new ≡ steps so_far.old (lines_of bytes.now)) }
{
    let mut rest = bytes;
    while !rest.is_empty() {
        let (line, after) = first_line(rest);
        if let Some(fault) = so_far.take(alloc, line)? {
            return Ok(Some(fault));
        }
        rest = after;
    }
    Ok(None)
}

ghost use Rattle.std.specs.Prelude.{IfOk, MatchResult};
ghost use Rattle.pgn_language.specs.Inputs.{IsSound};
ghost use Rattle.pgn_check.specs.Entries.{IsBlamedFirst, IsReadSoFar};

use crate::entries::first_bad;
use pgn_base::Seed;
use pgn_form::{Reading, read_output};
use pgn_language::Scenario;
use std::alloc::{AllocError, Global};

/// What a text shows as an output of the scenario, where each transaction of its journal is finished and some section's; or the
/// number of the first line that is to blame, from 1, whatever the settings of the run. Hashes are made with this seed.
#[tactic(auto, using(crate::proofs::EntryLaws::lines_fit))]
pub fn read_journal(
    alloc: Global,
    seed: Seed,
    scenario: &Scenario,
    out: &[u8],
) -> Result<Result<Reading, usize>, AllocError>
    requires sound { IsSound scenario.now }
    ensures { IfOk result (λ read. MatchResult read
        (λ reading. IsReadSoFar scenario.now out.now reading.journal reading.traces)
        (IsBlamedFirst scenario.now out.now)) }
{
    let reading = match read_output(alloc, scenario, out)? {
        Ok(reading) => reading,
        Err(number) => return Ok(Err(number)),
    };
    let bad = first_bad(
        alloc,
        seed,
        scenario.sections.as_slice(),
        reading.journal.as_slice(),
    );
    match bad {
        Ok(None) => Ok(Ok(reading)),
        Ok(Some(number)) => {
            drop(reading);
            Ok(Err(number))
        }
        Err(AllocError) => {
            drop(reading);
            Err(AllocError)
        }
    }
}

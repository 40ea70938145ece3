ghost use Rattle.std.specs.Prelude.{◌≡◌, ◌^◌, ◌<◌, IfOk, All};
ghost use Rattle.pgn_journal.specs.Journal.{IsFinished};
ghost use Rattle.pgn_ledger.specs.Places.{notes_in, places_from};

use crate::packing::after;
use pgn_base::Format;
use pgn_journal::Tx;
use std::alloc::{AllocError, Global};

/// Where each transaction of a journal begins, and where the last ends.
pub fn places_of(alloc: Global, format: Format, journal: &[Tx]) -> Result<Vec<u64>, AllocError>
    requires finished { All IsFinished journal.now }
    requires few { notes_in journal.now < 2 ^ 40 }
    ensures { IfOk result (λ places. places.items ≡ places_from format 0 journal.now) }
{
    let mut places = Vec::with_capacity(alloc, journal.len())?;
    let mut at = 0;
    for tx in journal {
        places.push(at)?;
        at = after(format, at, tx);
    }
    places.push(at)?;
    Ok(places)
}

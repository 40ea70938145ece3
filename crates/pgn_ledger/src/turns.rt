ghost use Rattle.std.specs.Prelude.{◌≡◌, ◌^◌, ◌<◌, [], length, IfOk};
ghost use Rattle.pgn_ledger.specs.Turns.{ranks_from, AreTurns};

use pgn_base::SECTIONS_MAX;
use pgn_journal::Tx;
use std::alloc::{AllocError, Global};

/// Of each transaction of a journal, how many of its session stand before it; and of each session, how many are its.
#[derive(Drop)]
pub struct Turns {
    pub ranks: Vec<u32>,
    pub counts: Vec<u32>,
}

/// The turns of a journal's transactions.
pub fn turns_of(alloc: Global, journal: &[Tx]) -> Result<Turns, AllocError>
    requires { length journal.now < 2 ^ 32 }
    ensures ranks { IfOk result (λ turns. turns.ranks.items ≡ ranks_from [] journal.now) }
    ensures counts { IfOk result (λ turns. AreTurns journal.now turns.counts.items) }
{
    let mut counts = vec![in alloc; 0u32; SECTIONS_MAX as usize + 1]?;
    let mut ranks = Vec::with_capacity(alloc, journal.len())?;
    for tx in journal {
        let session = tx.session.get() as usize;
        ranks.push(counts[session])?;
        counts[session] += 1;
    }
    Ok(Turns { ranks, counts })
}

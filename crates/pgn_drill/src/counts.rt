ghost use Rattle.std.specs.Prelude.{◌≡◌, ◌≤◌, ◌+◌, count_by, sum_by, MatchOption};
ghost use Rattle.pgn_journal.specs.Journal.{is_committed};
ghost use Rattle.pgn_model.specs.Text.{received_by, received_in};

use pgn_journal::{Fate, Tx};
use pgn_model::{Item, Trace};

/// How many notifications all traces received. There is no answer exactly where they are 2^64 or more.
pub fn received(traces: &[Trace]) -> Option<u64>
    ensures { MatchOption result (18446744073709551616 ≤ received_in traces.now) (λ n.
        n ≡ received_in traces.now) }
{
    let mut count = 0;
    for trace in traces {
        let Some(more) = with_items(count, trace.items.as_slice()) else {
            return None;
        };
        count = more;
    }
    Some(count)
}

// A number and how many notifications items received.
fn with_items(before: u64, items: &[Item]) -> Option<u64>
    ensures { MatchOption result (18446744073709551616 ≤ before + sum_by received_by items.now)
        (λ n. n ≡ before + sum_by received_by items.now) }
{
    let mut count = before;
    for item in items {
        let Some(more) = count.checked_add(received_at(item)) else {
            return None;
        };
        count = more;
    }
    Some(count)
}

fn received_at(item: &Item) -> u64
    ensures { result ≡ received_by item.now }
{
    match item {
        Item::Read { got, .. } => got.as_slice().len() as u64,
        _ => 0,
    }
}

/// How many transactions committed.
pub(crate) fn committed(journal: &[Tx]) -> u64
    ensures { result ≡ count_by (λ tx. is_committed tx.fate) journal.now }
{
    let mut count = 0;
    for tx in journal {
        if tx.fate == Fate::Committed {
            count += 1;
        }
    }
    count
}

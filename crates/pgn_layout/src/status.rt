ghost use Rattle.std.specs.Prelude.{◌≡◌, ◌≤◌, ◌<◌};
ghost use Rattle.pgn_layout.specs.Status.{status_code, status_shift, status_in, status_set};

use pgn_base::{FIRST_XID, Xid};
use pgn_journal::Fate;

/// The statuses of so many transactions stand in one word.
const STATUSES_A_WORD: u32 = 32;

/// The bits of a status.
const STATUS_BITS: u32 = 2;

// How many bits of its word stand below the status of a transaction.
fn shift_of(xid: Xid) -> u32
    ensures value { result ≡ status_shift xid }
    ensures within { result ≤ 62 }
{
    STATUS_BITS * ((xid.get() - FIRST_XID) % STATUSES_A_WORD)
}

// The code of a fate.
fn code_of(fate: Fate) -> u64
    ensures value { result ≡ status_code fate }
    ensures within { result < 4 }
{
    match fate {
        Fate::Committed => 1,
        Fate::Aborted => 2,
    }
}

/// The status of a transaction in its word: 0 where it is in progress, 1 where it committed, 2 where it was aborted.
pub fn status_of(word: u64, xid: Xid) -> u8
    ensures value { result ≡ status_in word xid }
    ensures within { result < 4 }
{
    ((word >> shift_of(xid)) & 3) as u8
}

/// The bits that set the status of a finished transaction in its word, by an or.
#[tactic(auto, using(crate::proofs::StatusLaws::shifted_fits))]
pub fn status_bits(xid: Xid, fate: Fate) -> u64
    ensures { result ≡ status_set xid fate }
{
    code_of(fate) << shift_of(xid)
}

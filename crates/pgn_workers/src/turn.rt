ghost use Rattle.std.specs.Prelude.{◌≡◌, ◌≢◌, Ok};

use std::alloc::AllocError;

/// What a turn of a worker came to, or a round of turns.
#[derive(Clone, Copy)]
pub enum Turn {
    /// Something was done.
    Did,
    /// Nothing was done but to wait, and something was heard meanwhile.
    Heard,
    /// Nothing was done but to wait.
    Waited,
    /// The worker is over, or all are.
    Ended,
}

/// How often in a row, before this time, nothing was done in a round, and whether something was heard in the last one.
#[derive(Clone, Copy)]
pub struct Pause {
    pub heard: bool,
    pub waits: u32,
}

impl Turn {
    /// A turn in which nothing was done but to wait.
    pub fn waited(heard: bool) -> Turn
        ensures { result ≢ Turn.Ended }
    {
        if heard { Turn::Heard } else { Turn::Waited }
    }
}

// What two parts of a round come to: a refusal, if one was refused; Ended where both are over; and nothing done where neither did anything.
pub(crate) fn both_turns(
    first: Result<Turn, AllocError>,
    second: Result<Turn, AllocError>,
) -> Result<Turn, AllocError>
    ensures done { (turn : Turn) → result ≡ Ok turn → (one : Turn) × (other : Turn)
        × (first ≡ Ok one) × (second ≡ Ok other) }
    ensures ended { result ≡ Ok Turn.Ended → (first ≡ Ok Turn.Ended) × (second ≡ Ok Turn.Ended) }
{
    let turn = match (first?, second?) {
        (Turn::Did, _) | (_, Turn::Did) => Turn::Did,
        (Turn::Heard, _) | (_, Turn::Heard) => Turn::Heard,
        (Turn::Waited, _) | (_, Turn::Waited) => Turn::Waited,
        (Turn::Ended, Turn::Ended) => Turn::Ended,
    };
    Ok(turn)
}

ghost use Rattle.std.specs.Prelude.{◌≡◌, false};

use pgn_messages::Saying;
use pgn_outlet::OutletPass;

/// What desks tell by that share a thread: a pass for their numbers, and whether one of them was refused memory.
#[derive(Drop)]
pub struct Tells {
    pub pass: OutletPass<Saying>,
    pub(crate) refused: bool,
}

impl Tells {
    /// One by which nothing was told.
    pub fn new(pass: OutletPass<Saying>) -> Tells
        ensures pass { result.pass ≡ pass }
        ensures fine { result.refused ≡ false }
    {
        Tells {
            pass,
            refused: false,
        }
    }
}

ghost use Rattle.std.specs.Prelude.{◌≡◌};
ghost use Rattle.pgn_frames.specs.Callers.{first_stand, stand_of};

use crate::counts::Counts;
use pgn_messages::Ask;
use pgn_outlet::OutletPass;
use std::alloc::Global;

/// The clients of a seat, one after another, as their bytes come. It keeps at most one message that is not whole yet, and gives its memory
/// back once it is.
#[derive(Drop)]
pub struct Caller {
    /// The pass by which it puts into its seat's inbox.
    pub asks: OutletPass<Option<Ask>>,
    /// What was counted of what its clients asked.
    pub(crate) counts: Counts,
    /// The bytes of a message that is not whole.
    pub(crate) begun: Vec<u8>,
    /// Whether its client has left, by a Terminate or by what it was refused for: what comes of it up to its end is passed over.
    pub(crate) left: bool,
}

impl Caller {
    /// Before the first byte of a seat's first client. So many queries of all its clients together may notify. It takes no memory.
    pub fn new(alloc: Global, asks: OutletPass<Option<Ask>>, most: u32) -> Caller
        ensures pass { result.asks ≡ asks }
        ensures first { stand_of result ≡ first_stand most }
    {
        Caller {
            asks,
            counts: Counts::new(most),
            begun: Vec::new(alloc),
            left: false,
        }
    }
}

ghost use Rattle.std.specs.Prelude.{◌≡◌, map, length};
ghost use Rattle.pgn_hub.specs.Shape.{IsShape};
ghost use Rattle.pgn_words.specs.Passes.{shape_of};

use crate::bells::Bells;
use pgn_base::Format;
use pgn_words::WordQueue;
use std::sync::atomic::AtomicBool;

/// The words that all sessions share, and what it takes to write on them: the limit in pages, which is 2 to 1,024, the format of the
/// entries, the database of each seat, and its bell; and whether the run was called off. `Hub::open` makes one with a pass for each seat, and
/// `Hub::gather` ends it with all of them.
#[derive(Drop)]
pub struct WordHub {
    pub(crate) queue: WordQueue,
    pub(crate) pages: u32,
    pub(crate) format: Format,
    pub(crate) dbs: Vec<u32>,
    pub(crate) bells: Bells,
    pub(crate) called_off: AtomicBool,
    ghost shaped: { IsShape (shape_of queue) },
    ghost formatted: { (shape_of queue).format ≡ format },
    ghost limited: { pages ≡ (shape_of queue).pages },
    ghost databases: { dbs.items ≡ map (λ seat. seat.db) (shape_of queue).seats },
    ghost belled: { length bells.words.items ≡ length (shape_of queue).seats },
}

impl WordHub {
    // How many seats there are.
    pub(crate) fn seats(&self) -> u32
        ensures { result ≡ length (shape_of self.now.queue).seats }
    {
        self.dbs.len() as u32
    }
}

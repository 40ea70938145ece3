use pgn_base::Seed;
use std::alloc::Global;

/// What a run works with: its runtime, its memory, and the seed that hashes are made with. No contract speaks of them.
pub struct Means<'a, R> {
    pub rt: &'a R,
    pub alloc: Global,
    pub hashes: Seed,
}

// Written out, so that this crate proves it once for all that drop one.
impl<'a, R> Drop for Means<'a, R> {
    fn drop(self) {
        let Means {
            rt: _,
            alloc: _,
            hashes: _,
        } = self;
    }
}

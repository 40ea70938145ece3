use pgn_base::Seed;
use std::random::RandomSource;

/// What the run's hashes are made with: 16 random bytes of the system. Where it gives none, it is the seed that everybody knows; no
/// output depends on it, but a chosen input may then take long.
pub fn drawn<R: RandomSource>(source: &R) -> Seed {
    let mut bytes = [0; 16];
    match source.fill_bytes(&mut bytes) {
        Ok(()) => Seed::new(bytes),
        Err(_) => Seed::fixed(),
    }
}

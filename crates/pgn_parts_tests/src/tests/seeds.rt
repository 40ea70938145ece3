// What no contract says: that what differs has two hashes, and that they depend on the seed.
use pgn_base::Seed;
use std::hash::{BuildHasher, Hasher};

pub fn hash_of(seed: Seed, bytes: &[u8]) -> u64 {
    let mut hasher = seed.build_hasher();
    hasher.write(bytes);
    hasher.finish()
}

// A text of zeros has another hash than with a one in its last place, and than without its last place.
fn counts_its_last_byte(seed: Seed, zeros: &[u8], one: &[u8]) -> bool {
    let hash = hash_of(seed, zeros);
    let shorter = match zeros.split_last() {
        Some((_, rest)) => rest,
        None => zeros,
    };
    hash != hash_of(seed, one) && hash != hash_of(seed, shorter)
}

#[test]
fn each_byte_and_the_length_count(rt: HostRuntime) {
    let zeros = [0; 24];
    for at in 0..zeros.len() {
        let mut one = zeros;
        one[at] = 1;
        assert!(rt; counts_its_last_byte(Seed::fixed(), &zeros[..at + 1], &one[..at + 1]));
        assert!(rt; hash_of(Seed::fixed(), &zeros) != hash_of(Seed::fixed(), &one));
    }
}

// Whether the hash of a text under a seed is that under the same seed, and neither with another state nor with another multiplier.
fn come_from_the_seed() -> bool {
    let mut state = [7; 16];
    state[0] = 8;
    let mut multiplier = [7; 16];
    multiplier[15] = 8;
    let hash = hash_of(Seed::new([7; 16]), b"c");
    hash != hash_of(Seed::new(state), b"c")
        && hash != hash_of(Seed::new(multiplier), b"c")
        && hash == hash_of(Seed::new([7; 16]), b"c")
}

#[test]
fn the_state_and_the_multiplier_come_from_the_seed(rt: HostRuntime) {
    assert!(rt; come_from_the_seed());
}

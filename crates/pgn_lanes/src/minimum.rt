ghost use Rattle.std.specs.Prelude.{◌≡◌, ◌%◌, length};
ghost use Rattle.pgn_lanes.specs.Least.{plain_least, least_with};

use std::simd::prelude::*;

// How many words are looked at together.
const LANES: usize = 8;

// The least of a word and all of the words.
fn least_of(start: u64, words: &[u64]) -> u64
    ensures { result ≡ least_with start words.now }
{
    let mut least = start;
    for word in words {
        least = least.min(*word);
    }
    least
}

// Lanes that have the least that a word and all of the words have. The words are a multiple of the lanes.
fn least_lanes(start: u64, words: &[u64]) -> u64x8
    requires { length words.now % LANES ≡ 0 }
    ensures { least_with start result ≡ least_with start words.now }
{
    let mut lanes = u64x8::splat(start);
    for block in 0..words.len() / LANES {
        let more = u64x8::from_slice(&words[block * LANES..]);
        lanes = more.simd_lt(lanes).select(more, lanes);
    }
    lanes
}

/// The least of the words, and none exactly where there are no words.
pub fn least(words: &[u64]) -> Option<u64>
    ensures { result ≡ plain_least words.now }
{
    let first = *words.first()?;
    let whole = words.len() / LANES * LANES;
    let lanes = least_lanes(first, &words[..whole]);
    let least = least_of(first, lanes.as_array());
    Some(least_of(least, &words[whole..]))
}

ghost use Rattle.std.specs.Prelude.{◌≡◌, ◌+◌, ◌<◌, ◌≤◌, length};
ghost use Rattle.pgn_base.specs.Hashes.{first_hasher, joined_product, mixed, word_at, last_word, written, hash_of};

use std::hash::{BuildHasher, Hasher};

/// What the hashes of a run are made with, so that nobody who does not know it can choose names whose hashes are equal. It makes the
/// hasher of each map and set that is given it. No output depends on it: all of these go in the order in which things were put in.
#[derive(Clone, Copy)]
pub struct Seed {
    first: SeededHasher,
}

/// A hasher that mixes each word into its state by a multiplication of 64 to 128 bits, of which it joins the halves. Both its first
/// state and its multiplier come from the seed. Where the multiplier was known, a word equal to it could be put where a product is
/// to be zero, and what stood before would be lost.
#[derive(Clone, Copy)]
pub struct SeededHasher {
    state: u64,
    multiplier: u64,
}

impl Seed {
    /// The seed of 16 bytes, which should be random.
    pub fn new(bytes: [u8; 16]) -> Seed {
        let keys = u128::from_le_bytes(bytes);
        Seed::of_keys((keys & 0xFFFF_FFFF_FFFF_FFFF) as u64, (keys >> 64) as u64)
    }

    /// A seed that everybody knows, for tests, and for a run that was given no random bytes.
    pub fn fixed() -> Seed {
        Seed::of_keys(0x6a09_e667_f3bc_c908, 0xbb67_ae85_84ca_a73b)
    }

    // Of an odd multiplier no two words have one product.
    fn of_keys(state: u64, multiplier: u64) -> Seed {
        Seed {
            first: SeededHasher {
                state,
                multiplier: multiplier | 1,
            },
        }
    }
}

impl BuildHasher for Seed {
    type Hasher = SeededHasher;

    ghost build_hasher = { first_hasher };

    fn build_hasher(&self) -> SeededHasher {
        self.first
    }
}

impl Hasher for SeededHasher {
    ghost write = { written };

    ghost finish = { hash_of };

    fn finish(&self) -> u64 {
        self.state
    }

    fn write(&mut self, bytes: &[u8]) {
        let mut state = self.state;
        let mut at = 0;
        while bytes.len() - at >= 8 {
            state = mixed(self.multiplier, state, word_at(bytes, at));
            at += 8;
        }
        self.state = mixed(self.multiplier, state, last_word(bytes, at));
    }
}

// A state with one more word.
fn mixed(multiplier: u64, state: u64, word: u64) -> u64
    ensures { result ≡ mixed multiplier state word }
{
    joined_product(state ^ word, multiplier)
}

// The two halves of a product of 128 bits, joined by xor.
fn joined_product(a: u64, b: u64) -> u64
    ensures { result ≡ joined_product a b }
{
    let product = a as u128 * b as u128;
    (product & 0xFFFF_FFFF_FFFF_FFFF) as u64 ^ (product >> 64) as u64
}

// Eight bytes as a word, the lowest first.
fn word_at(bytes: &[u8], at: usize) -> u64
    requires { at + 8 ≤ length bytes.now }
    ensures { result ≡ word_at bytes.now at }
{
    u64::from_le_bytes([
        bytes[at],
        bytes[at + 1],
        bytes[at + 2],
        bytes[at + 3],
        bytes[at + 4],
        bytes[at + 5],
        bytes[at + 6],
        bytes[at + 7],
    ])
}

// The fewer than eight bytes that are left as a word, with how many bytes there were as its highest byte. Bytes may be read twice.
fn last_word(bytes: &[u8], at: usize) -> u64
    requires within { at ≤ length bytes.now }
    requires few { length bytes.now < at + 8 }
    ensures { result ≡ last_word bytes.now at }
{
    let len = bytes.len();
    let left = len - at;
    let count = (len % 256) as u8;
    if left >= 4 {
        u64::from_le_bytes([
            bytes[at],
            bytes[at + 1],
            bytes[at + 2],
            bytes[at + 3],
            bytes[len - 3],
            bytes[len - 2],
            bytes[len - 1],
            count,
        ])
    } else if left > 0 {
        u64::from_le_bytes([
            bytes[at],
            bytes[at + left / 2],
            bytes[len - 1],
            0,
            0,
            0,
            0,
            count,
        ])
    } else {
        u64::from_le_bytes([0, 0, 0, 0, 0, 0, 0, count])
    }
}

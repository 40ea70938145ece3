ghost use Rattle.std.specs.Prelude.{◌≡◌, ◌↔◌, ℕ, List, [], ◌∷◌, true, Contains, OnOk};
ghost use Rattle.pgn_walk.specs.Pairs.{AreKeys, Gathers, key_of};

use indexmap::IndexSet;
use pgn_base::Seed;
use std::alloc::{AllocError, Global};
use std::marker::Model;

/// Pairs of numbers, hashed.
#[derive(Drop)]
pub struct Pairs {
    keys: IndexSet<u64, Seed>,
}

impl Model for Pairs {
    ghost use Rattle.std.specs.Prelude.{ℕ, List};

    ghost Value = { List ℕ };

    ghost view = { λ pairs. pairs.keys.keys };
}

impl Pairs {
    /// None. Hashes are made with this seed.
    pub fn new(alloc: Global, seed: Seed) -> Pairs
        ensures { AreKeys [] result }
    {
        Pairs {
            keys: IndexSet::with_hasher(alloc, seed),
        }
    }

    /// One more.
    #[tactic(auto, using(crate::proofs::PairLaws::puts))]
    pub fn put(&mut self, first: u32, second: u32) -> Result<(), AllocError>
        ensures { OnOk result (Gathers self.old self.new ((first, second) ∷ [])) }
    {
        self.keys.insert(key(first, second))?;
        Ok(())
    }

    /// It is among them.
    pub fn has(&self, first: u32, second: u32) -> bool
        ensures { (pairs : List (ℕ × ℕ)) → AreKeys pairs self.now
            → (result ≡ true) ↔ Contains pairs (first, second) }
    {
        self.keys.contains(&key(first, second))
    }
}

// A pair as one number.
fn key(first: u32, second: u32) -> u64
    ensures { result ≡ key_of first second }
{
    u64::from(first) * 4_294_967_296 + u64::from(second)
}

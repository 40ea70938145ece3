ghost use Rattle.std.specs.Prelude.{◌≡◌, ◌<◌, length, IfOk, OnOk};
ghost use Rattle.pgn_language.specs.Inputs.{flag_number};
ghost use Rattle.pgn_scenario.specs.Flags.{no_flags, signalling, awaiting, first_unsignalled};

use indexmap::{IndexMap, IndexSet};
use pgn_base::{Copied, Name, Names, Seed};
use std::alloc::{AllocError, Global};
use std::marker::Model;

/// The flags that lines name.
#[derive(Drop)]
pub struct Flags {
    // In order of first appearance.
    names: IndexSet<Name, Seed>,
    signalled: IndexSet<Name, Seed>,
    // With the first line that awaits each.
    awaited: IndexMap<Name, u32, Seed>,
}

impl Model for Flags {
    ghost use Rattle.pgn_scenario.specs.Flags as seen;

    ghost Value = { seen.Flags };

    ghost view = { λ f. record { names = f.names.keys; signalled = f.signalled.keys; awaited = f.awaited.entries } };
}

impl Flags {
    /// No flags. Hashes are made with this seed. It takes no memory.
    pub fn new(alloc: Global, seed: Seed) -> Flags
        ensures { result ≡ no_flags }
    {
        Flags {
            names: IndexSet::with_hasher(alloc, seed),
            signalled: IndexSet::with_hasher(alloc, seed),
            awaited: IndexMap::with_hasher(alloc, seed),
        }
    }

    /// How many flags are named.
    pub fn len(&self) -> usize
        ensures { result ≡ length self.now.names }
    {
        self.names.len()
    }

    /// A line signals a flag. The answer is the flag's number.
    pub fn signal(&mut self, alloc: Global, flag: Name) -> Result<usize, AllocError>
        ensures number { IfOk result (λ number. number ≡ flag_number self.old.names flag) }
        ensures within { IfOk result (λ number. number < length self.new.names) }
        ensures after { OnOk result (self.new ≡ signalling self.old flag) }
    {
        let copy = flag.copy(alloc)?;
        let (number, _) = self.names.insert_full(flag)?;
        self.signalled.insert(copy)?;
        Ok(number)
    }

    /// A line awaits a flag. The answer is the flag's number.
    pub fn wait(&mut self, alloc: Global, flag: Name, line: u32) -> Result<usize, AllocError>
        ensures number { IfOk result (λ number. number ≡ flag_number self.old.names flag) }
        ensures within { IfOk result (λ number. number < length self.new.names) }
        ensures after { OnOk result (self.new ≡ awaiting self.old flag line) }
    {
        let copy = flag.copy(alloc)?;
        let (number, _) = self.names.insert_full(flag)?;
        if !self.awaited.contains_key(&copy) {
            self.awaited.insert(copy, line)?;
        }
        Ok(number)
    }

    /// The lowest line that awaits a flag which no line signals.
    pub fn unsignalled(&self) -> Option<u32>
        ensures { result ≡ first_unsignalled self.now.signalled self.now.awaited }
    {
        for (flag, line) in self.awaited.iter() {
            if !self.signalled.contains(flag) {
                return Some(*line);
            }
        }
        None
    }

    /// The flags, each at its number.
    pub fn names(&self, alloc: Global) -> Result<Names, AllocError>
        ensures { IfOk result (λ names. names ≡ self.now.names) }
    {
        let mut names = Names::new(alloc);
        for name in self.names.as_slice() {
            names.push(name.copy(alloc)?)?;
        }
        Ok(names)
    }
}

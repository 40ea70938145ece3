ghost use Rattle.std.specs.Prelude.{◌≡◌, ℕ, ◌+◌, ◌-◌, ◌<◌, ◌≤◌, List, [], ◌∷◌, ◌++◌, take, length, slice_index_or, false, true, All, IfNone, IfSome, OnOk, OnErr};
ghost use Rattle.pgn_block.specs.Kept.{is_named};
ghost use Rattle.pgn_block.specs.Counts.{count_of, CountsMore, CountsLess, CountsAt};
ghost use Rattle.pgn_block.specs.declared.savepoint.Savepoint.{Savepoint};

use crate::savepoint::{Savepoint, newest};
use indexmap::IndexMap;
use pgn_base::{Copied, Name, Seed};
use std::alloc::{AllocError, Global};
use std::marker::Model;

/// Up to so many savepoints are looked through, which is faster than a hash.
const FEW: usize = 32;

/// The savepoints that stand, in order. A name that none of them has is found out without a look at each.
#[derive(Drop)]
pub(crate) struct Savepoints {
    list: Vec<Savepoint>,
    // How many of those past the first few have each name; a name that none of these has is not there.
    names: IndexMap<Name, usize, Seed>,
}

impl Model for Savepoints {
    ghost use Rattle.std.specs.Prelude.{List};
    ghost use Rattle.pgn_block.specs.Counts.{AreCounted};
    ghost use Rattle.pgn_block.specs.declared.savepoint.Savepoint.{Savepoint};
    ghost use Rattle.pgn_block.specs.declared.savepoints.TheConstants.{FEW};

    ghost Value = { List Savepoint };

    ghost view = { λ savepoints. savepoints.list.items };

    ghost invariant = { λ savepoints. AreCounted FEW savepoints.list.items savepoints.names.entries };
}

impl Savepoints {
    /// None stands. It takes no memory.
    pub(crate) fn new(alloc: Global, seed: Seed) -> Savepoints
        ensures { result ≡ [] }
    {
        Savepoints {
            list: Vec::new(alloc),
            names: IndexMap::with_hasher(alloc, seed),
        }
    }

    /// Puts one at the end. Where memory does not suffice, nothing changes.
    pub(crate) fn push(&mut self, savepoint: Savepoint) -> Result<(), AllocError>
        ensures ok { OnOk result (self.new ≡ self.old ++ savepoint ∷ []) }
        ensures err { OnErr result (self.new ≡ self.old) }
    {
        self.list.reserve(1)?;
        let alloc = *self.list.allocator();
        count_at(alloc, &mut self.names, self.list.len(), &savepoint.name)?;
        self.list.push(savepoint).unwrap();
        Ok(())
    }

    /// Keeps the first so many.
    pub(crate) fn truncate(&mut self, len: usize)
        ensures { self.new ≡ take len self.old }
    {
        while self.list.len() > len {
            self.drop_last();
        }
    }

    fn drop_last(&mut self)
        ensures { self.new ≡ take (length self.old - 1) self.old }
    {
        let Some(Savepoint { name, .. }) = self.list.pop() else {
            return;
        };
        if self.list.len() >= FEW {
            count_one_less(&mut self.names, name);
        }
    }

    /// Where the newest of this name stands.
    pub(crate) fn newest(&self, name: &Name) -> Option<usize>
        ensures none { IfNone result
            (All (λ savepoint. is_named name.now savepoint ≡ false) self.now) }
        ensures within { IfSome result (λ at. at < length self.now) }
        ensures next { IfSome result (λ at. at < usize.MAX) }
        ensures named { IfSome result (λ at. (other : Savepoint)
            → is_named name.now (slice_index_or self.now at other) ≡ true) }
        ensures newest { IfSome result (λ at. (k : ℕ) (other : Savepoint)
            → at < k → k < length self.now
            → is_named name.now (slice_index_or self.now k other) ≡ false) }
    {
        if self.list.len() > FEW && count(&self.names, name) == 0 {
            return newest(&self.list[..FEW], name);
        }
        newest(&self.list, name)
    }

    /// The one at a place.
    pub(crate) fn at(&self, at: usize) -> &Savepoint
        requires { at < length self.now }
        ensures { result.now ≡ slice_index_or self.now at result.now }
    {
        &self.list[at]
    }
}

// How often a name is counted.
fn count(counts: &IndexMap<Name, usize, Seed>, name: &Name) -> usize
    ensures { result ≡ count_of counts.now.entries name.now }
{
    match counts.get(name) {
        Some(count) => *count,
        None => 0,
    }
}

// Counts the name of a savepoint with so many before it, past the first few. A refusal changes nothing.
fn count_at(
    alloc: Global,
    counts: &mut IndexMap<Name, usize, Seed>,
    before: usize,
    name: &Name,
) -> Result<(), AllocError>
    requires { count_of counts.old.entries name.now ≤ before - FEW }
    ensures ok { OnOk result (CountsAt FEW before name.now counts.old.entries counts.new.entries) }
    ensures err { OnErr result (counts.new.entries ≡ counts.old.entries) }
{
    if before < FEW {
        return Ok(());
    }
    count_one_more(alloc, counts, name)
}

// Counts a name once more. A refusal changes nothing.
fn count_one_more(
    alloc: Global,
    counts: &mut IndexMap<Name, usize, Seed>,
    name: &Name,
) -> Result<(), AllocError>
    requires { count_of counts.old.entries name.now < usize.MAX }
    ensures ok { OnOk result (CountsMore name.now counts.old.entries counts.new.entries) }
    ensures err { OnErr result (counts.new.entries ≡ counts.old.entries) }
{
    let more = count(counts, name) + 1;
    counts.insert(name.copy(alloc)?, more)?;
    Ok(())
}

// Counts a name once less.
fn count_one_less(counts: &mut IndexMap<Name, usize, Seed>, name: Name)
    ensures { CountsLess name counts.old.entries counts.new.entries }
{
    let count = count(counts, &name);
    if count > 1 {
        counts.insert(name, count - 1).unwrap();
    } else {
        counts.swap_remove(&name);
    }
}

ghost use Rattle.std.specs.Prelude.{◌≡◌, ◌+◌, ◌<◌, ℕ, List, Some, length, slice_get, IfOk};
ghost use Rattle.pgn_base.specs.declared.note.Delivery.{Delivery};
ghost use Rattle.pgn_due.specs.Sent.{is_on, sent_in};
ghost use Rattle.pgn_due.specs.Places.{IsFirst, IsFirst-prop};
ghost use Rattle.pgn_due.specs.Lists.{AreAfter, AreLists};

use crate::lists::{Lists, Topic, first_in, lists_of};
use crate::sends::Sends;
use pgn_base::{DbOid, Name, Seed};
use pgn_journal::Tx;
use std::alloc::{AllocError, Global};

/// What a journal sent, where the notifications of each channel stand, and for each where the next on its channel does.
#[derive(Drop)]
pub struct Feed<'a> {
    pub(crate) sends: Sends<'a>,
    lists: Lists,
    after: Vec<Option<usize>>,
    ghost listed: { AreLists (sent_in sends.journal.now) lists.entries },
    ghost counted: { length after.items ≡ length (sent_in sends.journal.now) },
    ghost follow: { AreAfter (sent_in sends.journal.now) after.items } by { Prim.hlevel IsFirst-prop },
}

impl<'a> Feed<'a> {
    /// Goes through a journal. Hashes are made with this seed. It is refused for want of memory alone.
    pub fn new(alloc: Global, seed: Seed, journal: &'a [Tx]) -> Result<Feed<'a>, AllocError>
        ensures { IfOk result (λ feed. feed.sends.journal.now ≡ journal.now) }
    {
        let sends = Sends::new(alloc, journal)?;
        let lists = lists_of(alloc, seed, &sends)?;
        let after = after_of(alloc, &sends, &lists)?;
        Ok(Feed {
            sends,
            lists,
            after,
        })
    }

    /// What its hashes are made with.
    pub fn seed(&self) -> Seed {
        *self.lists.hasher()
    }

    /// The place of the first notification on a channel, from a given place on.
    pub(crate) fn first(
        &self,
        db: DbOid,
        channel: &Name,
        from: usize,
    ) -> Result<Option<usize>, AllocError>
        ensures { IfOk result
            (IsFirst (is_on db channel.now) (sent_in self.now.sends.journal.now) from) }
    {
        first_of(self.sends.alloc(), &self.lists, db, channel, from)
    }

    /// The place of the next notification on the channel of the one in this place.
    pub(crate) fn next(&self, at: usize) -> Option<usize>
        requires { at < length (sent_in self.now.sends.journal.now) }
        ensures { (one : ℕ × Delivery)
            → slice_get (sent_in self.now.sends.journal.now) at ≡ Some one
            → IsFirst (is_on one.0 one.1.note.channel)
            (sent_in self.now.sends.journal.now) (at + 1) result }
    {
        self.after[at]
    }
}

// The same, by the lists of what was sent.
fn first_of(
    alloc: Global,
    lists: &Lists,
    db: DbOid,
    channel: &Name,
    from: usize,
) -> Result<Option<usize>, AllocError>
    ensures { IfOk result
        (λ found. (sent : List (ℕ × Delivery)) → AreLists sent lists.now.entries
        → IsFirst (is_on db channel.now) sent from found) }
{
    let topic = Topic::new(alloc, db, channel)?;
    match lists.get(&topic) {
        Some(list) => Ok(first_in(list, from)),
        None => Ok(None),
    }
}

// For each notification the place of the next on its channel.
fn after_of(alloc: Global, sends: &Sends, lists: &Lists) -> Result<Vec<Option<usize>>, AllocError>
    requires { AreLists (sent_in sends.now.journal.now) lists.now.entries }
    ensures counted { IfOk result
        (λ after. length after.items ≡ length (sent_in sends.now.journal.now)) }
    ensures follow { IfOk result (λ after. AreAfter (sent_in sends.now.journal.now) after.items) }
{
    let mut after = Vec::with_capacity(alloc, sends.len())?;
    for at in 0..sends.len() {
        let sent = sends.at(at);
        let next = first_of(alloc, lists, sent.tx.db, &sent.note.channel, at + 1)?;
        after.push(next)?;
    }
    Ok(after)
}

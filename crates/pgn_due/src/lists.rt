ghost use Rattle.std.specs.Prelude.{◌≡◌, ◌++◌, ◌∷◌, [], ℕ, List, Bool, cond, IfOk, OnOk};
ghost use Rattle.pgn_base.specs.declared.note.Delivery.{Delivery};
ghost use Rattle.pgn_due.specs.Sent.{sent_in};
ghost use Rattle.pgn_due.specs.Places.{IsFirst, places};
ghost use Rattle.pgn_due.specs.Lists.{AreLists, list_at, same_topic};
ghost use Rattle.pgn_due.specs.declared.lists.Topic.{Topic};

use crate::sends::Sends;
use indexmap::IndexMap;
use pgn_base::{Copied, DbOid, Name, Seed};
use std::alloc::{AllocError, Global};

/// A channel of a database.
#[derive(PartialEq, Eq, Hash, Drop)]
pub struct Topic {
    db: u32,
    channel: Name,
}

impl Topic {
    pub fn new(alloc: Global, db: DbOid, channel: &Name) -> Result<Topic, AllocError>
        ensures { IfOk result (λ topic. topic ≡ record { db = db; channel = channel.now }) }
    {
        let channel = channel.copy(alloc)?;
        Ok(Topic {
            db: db.get(),
            channel,
        })
    }
}

/// Where the notifications of each channel stand.
pub type Lists = IndexMap<Topic, Vec<usize>, Seed>;

/// The lists of what was sent.
pub fn lists_of(alloc: Global, seed: Seed, sends: &Sends) -> Result<Lists, AllocError>
    ensures { IfOk result (λ lists. AreLists (sent_in sends.now.journal.now) lists.entries) }
{
    let mut lists = IndexMap::with_hasher(alloc, seed);
    for at in 0..sends.len() {
        let sent = sends.at(at);
        let topic = Topic::new(alloc, sent.tx.db, &sent.note.channel)?;
        put(alloc, &mut lists, topic, at)?;
    }
    Ok(lists)
}

// Puts a place at the end of a channel's.
fn put(alloc: Global, lists: &mut Lists, topic: Topic, at: usize) -> Result<(), AllocError>
    ensures { OnOk result
        ((other : Topic) → list_at lists.new.entries other ≡
        cond (same_topic other topic) (list_at lists.old.entries other ++ at ∷ [])
        (list_at lists.old.entries other)) }
{
    if let Some(list) = lists.get_mut(&topic) {
        list.push(at)?;
        return Ok(());
    }
    let mut list = Vec::new(alloc);
    list.push(at)?;
    lists.insert(topic, list)?;
    Ok(())
}

/// The first place of a list that is not below a given one.
pub fn first_in(list: &[usize], from: usize) -> Option<usize>
    ensures { (test : ℕ × Delivery → Bool) (sent : List (ℕ × Delivery))
        → list.now ≡ places test 0 sent → IsFirst test sent from result }
{
    let at = list.partition_point(|place| *place < from);
    match list.get(at) {
        Some(place) => Some(*place),
        None => None,
    }
}

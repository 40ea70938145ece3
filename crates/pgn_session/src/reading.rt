ghost use Rattle.std.specs.Prelude.{◌≡◌, ◌<◌, Some, IfOk, OnErr, vec_len, vec_capacity};
ghost use Rattle.pgn_hub.specs.Calls.{HasLearned};
ghost use Rattle.pgn_session.specs.Parts.{HasReadOn, with_read};

use crate::line::put;
use pgn_base::{Deliveries, Xid};
use pgn_hub::{Hub, PassView};
use pgn_listening::ListenSet;
use pgn_model::Item;
use std::alloc::{AllocError, Global};

/// A read at a hub, on from this mark.
#[derive(Drop)]
pub(crate) struct Reading<'a, H> {
    pub(crate) hub: &'a H,
    pub(crate) alloc: Global,
    pub(crate) from: Xid,
}

/// Reads on from the mark, and records it where the mark has moved: answers the new mark.
pub(crate) fn read_on<P: PassView + Drop, H: Hub<Pass = P>>(
    reading: Reading<'_, H>,
    pass: &mut P,
    set: &ListenSet,
    items: &mut Vec<Item>,
) -> Result<Xid, AllocError>
    requires own { H.is_pass reading.hub.now pass.old }
    requires mark { (P.known pass.old).mark ≡ Some reading.from }
    requires interested { (P.known pass.old).set ≡ set.now.channels }
    ensures own { H.is_pass reading.entry.hub.now pass.new }
    ensures read { IfOk result (λ to. HasReadOn (P.known pass.old) (P.known pass.new)
        set.now.channels reading.entry.from to items.old.items items.new.items) }
    ensures refused { OnErr result (HasLearned (P.known pass.old) (P.known pass.new)) }
    ensures refused_shows_nothing { OnErr result (items.new.items ≡ items.old.items) }
{
    let Reading { hub, alloc, from } = reading;
    items.reserve(1)?;
    let mut got = Vec::new(alloc);
    let Ok(to) = hub.scan(alloc, pass, set, &mut got) else {
        drop(got);
        return Err(AllocError);
    };
    show_read(items, from, to, Deliveries::from_items(got));
    Ok(to)
}

// Records a read where the mark has moved.
fn show_read(items: &mut Vec<Item>, from: Xid, to: Xid, got: Deliveries)
    requires room { vec_len items.old < vec_capacity items.old }
    ensures { items.new.items ≡ with_read items.old.items from to got }
{
    if from < to {
        put(items, Item::Read { from, to, got });
    }
}

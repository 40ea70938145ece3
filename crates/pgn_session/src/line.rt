ghost use Rattle.std.specs.Prelude.{◌≡◌, ◌+◌, ◌≤◌, ◌<◌, [], ◌∷◌, ◌++◌, vec_len, vec_capacity};
ghost use Rattle.pgn_hub.specs.Calls.{HasRaised};
ghost use Rattle.pgn_session.specs.Parts.{HasQuit, HasShownUsage, looked_items};
ghost use Rattle.pgn_session.specs.Steps.{HasLookedOn};
ghost use Rattle.pgn_model.specs.laws.NextLine.{quit_items};

use crate::FlagPlan;
use pgn_base::{Tag, Xid};
use pgn_hub::{Hub, PassView};
use pgn_model::Item;
use std::sync::Wait;

/// Records what happened, where there is room for it.
#[inline(always)]
pub(crate) fn put(items: &mut Vec<Item>, item: Item)
    requires { vec_len items.old + 1 ≤ vec_capacity items.old }
    ensures items { items.new.items ≡ items.old.items ++ item ∷ [] }
    ensures len { vec_len items.new ≡ vec_len items.old + 1 }
    ensures room { vec_capacity items.old ≤ vec_capacity items.new }
{
    items.push(item).unwrap();
}

/// Raises a flag, and records its line.
pub(crate) fn signal<P: PassView + Drop, H: Hub<Pass = P>>(
    hub: &H,
    pass: &mut P,
    items: &mut Vec<Item>,
    line: u32,
    flag: u32,
)
    requires own { H.is_pass hub.now pass.old }
    requires flag { flag < (H.shape hub.now).flags }
    requires room { vec_len items.old + 2 ≤ vec_capacity items.old }
    ensures own { H.is_pass hub.now pass.new }
    ensures raised { HasRaised (P.known pass.old) (P.known pass.new) flag (P.known pass.old).told }
    ensures shown { items.new.items
        ≡ items.old.items ++ Item.Line line ∷ [] ++ Item.Raise (P.known pass.old).told ∷ [] }
{
    put(items, Item::Line { line });
    let value = hub.raise(pass, flag);
    put(items, Item::Raise { value });
}

/// Records a look at an awaited flag that found something, or that was the last one which the patience allows. `looks` is how many looks
/// there have been with this one.
pub(crate) fn show_look(items: &mut Vec<Item>, found: &Option<Xid>, looks: u64, patience: u64)
    requires { vec_len items.old + 1 ≤ vec_capacity items.old }
    ensures { items.new.items ≡ looked_items items.old.items looks patience found.now }
{
    match found {
        Some(value) => put(items, Item::Found { value: *value }),
        None => {
            if looks >= patience {
                put(items, Item::TimedOut { looks });
            }
        }
    }
}

/// Leaves, where the session is a listener, and records its line.
pub(crate) fn quit<P: PassView + Drop, H: Hub<Pass = P>>(
    hub: &H,
    pass: &mut P,
    items: &mut Vec<Item>,
    line: u32,
)
    requires own { H.is_pass hub.now pass.old }
    requires room { vec_len items.old + 2 ≤ vec_capacity items.old }
    ensures own { H.is_pass hub.now pass.new }
    ensures left { HasQuit (P.known pass.old) (P.known pass.new) }
    ensures shown { items.new.items ≡ items.old.items ++ Item.Line line ∷ [] ++ quit_items (P.known pass.old).mark }
{
    put(items, Item::Line { line });
    if pass.mark().is_none() {
        return;
    }
    hub.leave(pass);
    put(items, Item::Leave);
}

/// Shows the queue's usage, and records its line.
pub(crate) fn measure<P: PassView + Drop, H: Hub<Pass = P>, R: Wait>(
    rt: &R,
    hub: &H,
    pass: &mut P,
    items: &mut Vec<Item>,
    line: u32,
)
    requires own { H.is_pass hub.now pass.old }
    requires room { vec_len items.old + 3 ≤ vec_capacity items.old }
    ensures own { H.is_pass hub.now pass.new }
    ensures measured { HasShownUsage (H.shape hub.now) (P.known pass.old) (P.known pass.new)
        line items.old.items items.new.items }
{
    put(items, Item::Line { line });
    let usage = hub.usage(rt, pass);
    put(items, Item::Used { usage });
    let answer = Item::Reply {
        tag: Tag::Select(1),
        warning: None,
    };
    put(items, answer);
}

/// Looks at the end flags of the sessions behind the first ones, in order, until a look gives nothing: answers how many were found.
pub(crate) fn find_ends<P: PassView + Drop, H: Hub<Pass = P>>(
    hub: &H,
    pass: &mut P,
    plan: FlagPlan,
    first: u32,
) -> u32
    requires own { H.is_pass hub.now pass.old }
    requires flags { plan.first_end + plan.sessions ≤ (H.shape hub.now).flags }
    requires within { first ≤ plan.sessions }
    ensures own { H.is_pass hub.now pass.new }
    ensures looked { HasLookedOn plan first result (P.known pass.old) (P.known pass.new) }
{
    for session in first..plan.sessions {
        if hub.look(pass, plan.first_end + session).is_none() {
            return session;
        }
    }
    plan.sessions
}

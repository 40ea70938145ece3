ghost use Rattle.std.specs.Prelude.{◌≡◌, ◌≢◌, ◌&&◌, is_some, ◌+◌, ◌≤◌, [], ◌∷◌, ◌++◌, length, AllPairs, vec_len, vec_capacity};
ghost use Rattle.std.specs.List.{list_any};
ghost use Rattle.pgn_answers.specs.Savepoints.{is_listen};
ghost use Rattle.pgn_model.specs.laws.NextLine.{is_enlisting, is_leaving};
ghost use Rattle.pgn_session.specs.Commits.{HasJoined, HasSent, HasLeftOr, HasCommitted, has_actions, set_after, enlisted_items, sent_items, left_items, ending_item, commit_items};

use crate::Session;
use crate::line::put;
use pgn_base::{Action, Actions, Enlisted, Full, Note, Notes, Refusal, Tag, Xid};
use pgn_hub::{Hub, PassView};
use pgn_listening::ListenSet;
use pgn_model::Item;
use std::sync::Wait;

/// A commit that the block has handed out: what the transaction did to the listening set, what it sends, and what it is answered.
#[derive(Drop)]
pub(crate) struct Commit {
    pub(crate) actions: Actions,
    pub(crate) notes: Notes,
    pub(crate) tag: Tag,
}

impl<P: PassView + Drop> Session<P> {
    /// Commits a transaction, and records its line: the session becomes a listener, where an action listens; the notifications are
    /// sent; the actions take effect, unless the queue was full; a listener whose set is then empty leaves, and another one tells its
    /// channels, where there were actions. It takes no memory.
    pub(crate) fn carry_out<H: Hub<Pass = P>, R: Wait>(
        &mut self,
        rt: &R,
        hub: &H,
        line: u32,
        commit: Commit,
    )
        requires own { H.is_pass hub.now self.old.pass }
        requires different { AllPairs (λ a b. a ≢ b) commit.notes }
        requires few { length commit.notes ≤ (P.known self.old.pass).notes_left }
        requires set_room { length commit.actions ≤ self.old.set.room }
        requires room { vec_len self.old.items + 5 ≤ vec_capacity self.old.items }
        ensures own { H.is_pass hub.now self.new.pass }
        ensures same { self.new
            ≡ record self.old { pass = self.new.pass; set = self.new.set; items = self.new.items } }
        ensures committed { HasCommitted (H.shape hub.now)
            (P.known self.old.pass) (P.known self.new.pass) self.old.set.channels self.new.set.channels line commit.actions commit.notes commit.tag
            self.old.items.items self.new.items.items }
    {
        let Commit {
            actions,
            notes,
            tag,
        } = commit;
        let enlisted = enlist_where_it_listens(hub, &mut self.pass, actions.as_slice());
        let sent = send(rt, hub, &mut self.pass, notes.as_slice());
        let acted = has_actions(actions.as_slice());
        settle(&mut self.set, actions, &sent);
        let left = leave_or_tell(hub, &mut self.pass, &self.set, acted);
        let outcome = Outcome {
            enlisted,
            sent,
            left,
        };
        show_commit(&mut self.items, line, outcome, notes, tag);
    }
}

// An action is a LISTEN.
fn listens(action: &Action) -> bool
    ensures { result ≡ is_listen action.now }
{
    match action {
        Action::Listen(_) => true,
        Action::Unlisten(_) | Action::UnlistenAll => false,
    }
}

// An action listens.
fn some_listens(actions: &[Action]) -> bool
    ensures { result ≡ list_any is_listen actions.now }
{
    actions.iter().any(|action| listens(action))
}

// An action listens, and the session is no listener yet.
fn is_to_enlist(actions: &[Action], mark: Option<Xid>) -> bool
    ensures { result ≡ is_enlisting actions.now mark }
{
    some_listens(actions) && mark.is_none()
}

// A session that is no listener becomes one where an action listens.
fn enlist_where_it_listens<P: PassView + Drop, H: Hub<Pass = P>>(
    hub: &H,
    pass: &mut P,
    actions: &[Action],
) -> Option<Enlisted>
    requires own { H.is_pass hub.now pass.old }
    ensures own { H.is_pass hub.now pass.new }
    ensures joined { HasJoined (is_enlisting actions.now (P.known pass.old).mark)
        (P.known pass.old) (P.known pass.new) result }
    ensures notes { (P.known pass.new).notes_left ≡ (P.known pass.old).notes_left }
{
    if !is_to_enlist(actions, pass.mark()) {
        return None;
    }
    Some(hub.enlist(pass))
}

// The notifications are published, or meet a full queue.
fn send<P: PassView + Drop, H: Hub<Pass = P>, R: Wait>(
    rt: &R,
    hub: &H,
    pass: &mut P,
    notes: &[Note],
) -> Option<Result<Xid, Full>>
    requires own { H.is_pass hub.now pass.old }
    requires different { AllPairs (λ a b. a ≢ b) notes.now }
    requires few { length notes.now ≤ (P.known pass.old).notes_left }
    ensures own { H.is_pass hub.now pass.new }
    ensures sent { HasSent (H.shape hub.now) (P.known pass.old) (P.known pass.new) notes.now result }
{
    if notes.is_empty() {
        return None;
    }
    Some(hub.publish(rt, pass, notes))
}

// The actions take effect, unless the queue was full.
fn settle(set: &mut ListenSet, actions: Actions, sent: &Option<Result<Xid, Full>>)
    requires { length actions ≤ set.old.room }
    ensures { set.new.channels ≡ set_after sent.now set.old.channels actions }
{
    if let Some(Err(_)) = sent {
        return;
    }
    set.apply(actions);
}

// There are actions.
fn has_actions(actions: &[Action]) -> bool
    ensures { result ≡ has_actions actions.now }
{
    !actions.is_empty()
}

// A listener whose set is empty leaves; another one tells its channels, where the transaction had actions. Answers whether it has left.
fn leave_or_tell<P: PassView + Drop, H: Hub<Pass = P>>(
    hub: &H,
    pass: &mut P,
    set: &ListenSet,
    acted: bool,
) -> bool
    requires own { H.is_pass hub.now pass.old }
    ensures own { H.is_pass hub.now pass.new }
    ensures result { result ≡ is_leaving (P.known pass.old).mark set.now.channels }
    ensures left { HasLeftOr (is_leaving (P.known pass.old).mark set.now.channels)
        (is_some (P.known pass.old).mark && acted) set.now.channels (P.known pass.old) (P.known pass.new) }
{
    if pass.mark().is_none() {
        return false;
    }
    if set.is_empty() {
        hub.leave(pass);
        return true;
    }
    if !acted {
        return false;
    }
    hub.interest(pass, set);
    false
}

// What a commit has come to at the hub: whether the session has become a listener, what came of the notifications, and whether it has
// left.
#[derive(Clone, Copy)]
struct Outcome {
    enlisted: Option<Enlisted>,
    sent: Option<Result<Xid, Full>>,
    left: bool,
}

// Records a commit.
fn show_commit(items: &mut Vec<Item>, line: u32, outcome: Outcome, notes: Notes, tag: Tag)
    requires { vec_len items.old + 5 ≤ vec_capacity items.old }
    ensures { items.new.items
        ≡ commit_items items.old.items line outcome.enlisted outcome.sent notes outcome.left tag }
{
    let Outcome {
        enlisted,
        sent,
        left,
    } = outcome;
    put(items, Item::Line { line });
    show_enlisted(items, enlisted);
    show_sent(items, &sent, notes);
    show_left(items, left);
    show_ending(items, sent, tag);
}

// Records that the session has become a listener.
fn show_enlisted(items: &mut Vec<Item>, enlisted: Option<Enlisted>)
    requires { vec_len items.old + 1 ≤ vec_capacity items.old }
    ensures items { items.new.items ≡ items.old.items ++ enlisted_items enlisted }
    ensures room { vec_capacity items.old ≤ vec_capacity items.new }
    ensures one { vec_len items.new ≤ vec_len items.old + 1 }
{
    if let Some(Enlisted { base, point }) = enlisted {
        put(items, Item::Enlist { base, point });
    }
}

// Records what came of the notifications.
fn show_sent(items: &mut Vec<Item>, sent: &Option<Result<Xid, Full>>, notes: Notes)
    requires { vec_len items.old + 1 ≤ vec_capacity items.old }
    ensures items { items.new.items ≡ items.old.items ++ sent_items sent.now notes }
    ensures room { vec_capacity items.old ≤ vec_capacity items.new }
    ensures one { vec_len items.new ≤ vec_len items.old + 1 }
{
    match sent {
        None => {}
        Some(Ok(xid)) => put(items, Item::Publish { xid: *xid, notes }),
        Some(Err(full)) => put(items, Item::QueueFull { full: *full, notes }),
    }
}

// Records that the session is no listener any more.
fn show_left(items: &mut Vec<Item>, left: bool)
    requires { vec_len items.old + 1 ≤ vec_capacity items.old }
    ensures items { items.new.items ≡ items.old.items ++ left_items left }
    ensures room { vec_capacity items.old ≤ vec_capacity items.new }
    ensures one { vec_len items.new ≤ vec_len items.old + 1 }
{
    if left {
        put(items, Item::Leave);
    }
}

// Records the answer to a commit.
fn show_ending(items: &mut Vec<Item>, sent: Option<Result<Xid, Full>>, tag: Tag)
    requires { vec_len items.old + 1 ≤ vec_capacity items.old }
    ensures { items.new.items ≡ items.old.items ++ ending_item sent tag ∷ [] }
{
    let ending = match sent {
        Some(Err(_)) => Item::Refuse {
            refusal: Refusal::QueueFull,
        },
        None | Some(Ok(_)) => Item::Reply { tag, warning: None },
    };
    put(items, ending);
}

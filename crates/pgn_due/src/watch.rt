ghost use Rattle.std.specs.Prelude.{◌≡◌, ◌↔◌, ◌≤◌, ℕ, true, false, List, Option, None, Some, IfOk, OnOk, [], length};
ghost use Rattle.std.specs.BTreeSet.{contains};
ghost use Rattle.std.specs.Ordering.{nat_cmp};
ghost use Rattle.std.specs.List.{list_any};
ghost use Rattle.pgn_base.specs.Channels.{after_action, applied};
ghost use Rattle.pgn_journal.specs.declared.tx.Tx.{Tx};
ghost use Rattle.pgn_journal.specs.Due.{due, is_due_to};
ghost use Rattle.pgn_journal.specs.Journal.{entries_between};
ghost use Rattle.pgn_due.specs.Sent.{sent_in};
ghost use Rattle.pgn_due.specs.Next.{Changes, IsLess, IsMore, IsWatch, Passes};

use crate::feed::Feed;
use pgn_base::{Action, DbOid, Delivery, FIRST_XID, Name, Xid};
use pgn_listening::ListenSet;
use std::alloc::{AllocError, Global};
use std::collections::BTreeSet;

/// What is due next to a session that listens: of each of its channels the place of the next notification.
#[derive(Drop)]
pub struct Watch<'a> {
    feed: &'a Feed<'a>,
    db: DbOid,
    next: BTreeSet<usize>,
}

impl<'a> Watch<'a> {
    /// For a session in this database that is no listener.
    pub fn new(alloc: Global, feed: &'a Feed<'a>, db: DbOid) -> Watch<'a>
        ensures { (set : List (List ℕ)) → IsWatch feed.now.sends.journal.now db set None result }
    {
        Watch {
            feed,
            db,
            next: BTreeSet::new(alloc),
        }
    }

    /// The session reads from a mark on, and listens on the channels of a set. One that becomes a listener has an empty set as yet.
    pub fn begin(&mut self, set: &ListenSet, mark: Xid) -> Result<(), AllocError>
        ensures { OnOk result
            ((journal : List Tx) (db : ℕ) (before : List (List ℕ)) (was : Option ℕ)
            → IsWatch journal db before was self.old
            → IsWatch journal db set.now.channels (Some mark) self.new) }
    {
        let names = set.names(self.feed.sends.alloc())?;
        let from = self.feed.sends.start(mark.get());
        self.next.clear();
        for name in names.as_slice() {
            self.put(name, from)?;
        }
        Ok(())
    }

    /// Actions change the set, at a mark.
    pub fn act(&mut self, mark: &Option<Xid>, actions: &[Action]) -> Result<(), AllocError>
        ensures { OnOk result
            ((journal : List Tx) (db : ℕ) (set : List (List ℕ))
            → IsWatch journal db set mark.now self.old
            → IsWatch journal db (applied set actions.now) mark.now self.new) }
    {
        let Some(mark) = mark else {
            return Ok(());
        };
        let from = self.feed.sends.start(mark.get());
        for action in actions {
            self.follow(action, from)?;
        }
        Ok(())
    }

    // An action does.
    fn follow(&mut self, action: &Action, from: usize) -> Result<(), AllocError>
        ensures { OnOk result
            (Changes from self.old (λ set other. other ≡ after_action set action.now) self.new) }
    {
        match action {
            Action::Listen(name) => self.put(name, from),
            Action::Unlisten(name) => self.take_out(name, from),
            Action::UnlistenAll => {
                self.next.clear();
                Ok(())
            }
        }
    }

    // A channel more.
    #[tactic(auto, using(crate::proofs::WatchLaws::put_one))]
    fn put(&mut self, channel: &Name, from: usize) -> Result<(), AllocError>
        ensures { OnOk result (Changes from self.old (IsMore channel.now) self.new) }
    {
        if let Some(at) = self.feed.first(self.db, channel, from)? {
            self.next.insert(at)?;
        }
        Ok(())
    }

    // A channel less.
    fn take_out(&mut self, channel: &Name, from: usize) -> Result<(), AllocError>
        ensures { OnOk result (Changes from self.old (IsLess channel.now) self.new) }
    {
        if let Some(left) = self.feed.first(self.db, channel, from)? {
            self.next.remove(&left);
        }
        Ok(())
    }

    /// The session listens on no channel any more.
    pub fn clear(&mut self)
        ensures { (journal : List Tx) (db : ℕ) (set : List (List ℕ)) (mark : Option ℕ)
            → IsWatch journal db set mark self.old → IsWatch journal db [] mark self.new }
    {
        self.next.clear();
    }

    /// Nothing is due from the mark up to a number.
    pub fn finds_nothing(&self, to: u32) -> bool
        requires { FIRST_XID ≤ to }
        ensures { (journal : List Tx) (db mark : ℕ) (set : List (List ℕ))
            → IsWatch journal db set (Some mark) self.now
            → (result ≡ true) ↔
            (list_any (is_due_to db set) (entries_between journal mark to) ≡ false) }
    {
        self.is_past(self.feed.sends.start(to))
    }

    // Nothing is due before a place.
    fn is_past(&self, end: usize) -> bool
        ensures { (result ≡ true) ↔
            ((at : ℕ) → contains nat_cmp self.now.next at ≡ true → end ≤ at) }
    {
        match self.next.first() {
            Some(at) => *at >= end,
            None => true,
        }
    }

    /// A read up to a number received what was due; then the session has read up to there. Where it did not, nothing is said of the watch
    /// any more.
    pub fn takes(&mut self, to: Xid, got: &[Delivery]) -> Result<bool, AllocError>
        ensures { IfOk result
            (λ taken. (journal : List Tx) (db mark : ℕ) (set : List (List ℕ)) → 3 ≤ mark → mark ≤ to
            → IsWatch journal db set (Some mark) self.old
            → ((taken ≡ true) ↔ (got.now ≡ due journal mark to db set))
            × (taken ≡ true → IsWatch journal db set (Some to) self.new)) }
    {
        let end = self.feed.sends.start(to.get());
        for delivery in got {
            if !self.pass(end, delivery)? {
                return Ok(false);
            }
        }
        Ok(self.is_past(end))
    }

    // The next that is due, before a place, is received as this. Then it is due no more.
    fn pass(&mut self, end: usize, delivery: &Delivery) -> Result<bool, AllocError>
        requires { end ≤ length (sent_in self.old.feed.now.sends.journal.now) }
        ensures { IfOk result (λ passed. Passes end self.old delivery.now passed self.new) }
    {
        let Some(first) = self.next.first() else {
            return Ok(false);
        };
        let at = *first;
        if at >= end {
            return Ok(false);
        }
        let sent = self.feed.sends.at(at);
        if !sent.is(delivery) {
            return Ok(false);
        }
        if let Some(next) = self.feed.next(at) {
            self.next.insert(next)?;
        }
        self.next.remove(&at);
        Ok(true)
    }
}

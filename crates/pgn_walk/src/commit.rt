ghost use Rattle.std.specs.Prelude.{◌≡◌, ◌&&◌, OnOk, is_none};
ghost use Rattle.std.specs.List.{list_any};
ghost use Rattle.pgn_base.specs.Channels.{applied};
ghost use Rattle.pgn_answers.specs.Savepoints.{is_listen};
ghost use Rattle.pgn_model.specs.Walk.{leaving_or_answering, queueing_or_settled, settled};
ghost use Rattle.pgn_ledger.specs.ToShow.{ending_of};
ghost use Rattle.pgn_walk.specs.Standing.{GoesOn, IsReadyFor, Leads, commits};

use crate::standing::Standing;
use pgn_base::{Action, Actions, Notes};
use pgn_ledger::{Ending, ToShow};
use std::alloc::AllocError;
use std::mem;

// A transaction commits.
impl Standing<'_> {
    /// A session that is to listen and is no listener becomes one first.
    pub fn commit(
        &mut self,
        actions: Actions,
        notes: Notes,
        ending: Ending,
    ) -> Result<(), AllocError>
        ensures { OnOk result (Leads self.old self.new
            (λ s. commits s actions notes (ending_of ending))) }
    {
        if self.is_to_enlist(actions.as_slice()) {
            self.owed.set(ToShow::Enlisting {
                actions,
                notes,
                ending,
            });
            return Ok(());
        }
        self.queue_or_settle(actions, notes, ending)
    }

    // It is to become one.
    fn is_to_enlist(&self, actions: &[Action]) -> bool
        ensures { result ≡ (list_any is_listen actions.now && is_none self.now.mark) }
    {
        some_listens(actions) && self.mark.is_none()
    }

    /// The notifications come next, if there are any.
    pub fn queue_or_settle(
        &mut self,
        actions: Actions,
        notes: Notes,
        ending: Ending,
    ) -> Result<(), AllocError>
        ensures { OnOk result (Leads self.old self.new
            (λ s. queueing_or_settled s actions notes (ending_of ending))) }
    {
        if notes.as_slice().is_empty() {
            drop(notes);
            return self.settle(actions, ending);
        }
        self.owed.set(ToShow::Queueing {
            actions,
            notes,
            ending,
        });
        Ok(())
    }

    /// The actions take effect.
    pub fn settle(&mut self, actions: Actions, ending: Ending) -> Result<(), AllocError>
        ensures { OnOk result (Leads self.old self.new
            (λ s. settled s actions (ending_of ending))) }
    {
        let acted = self.act(actions);
        self.leave_or_answer(ending);
        acted
    }

    // The actions change the set, and what is due next.
    fn act(&mut self, actions: Actions) -> Result<(), AllocError>
        ensures { OnOk result (Leads self.old self.new
            (λ s. record s { set = applied s.set actions })) }
    {
        match self.watch_for(actions.as_slice()) {
            Ok(()) => {
                self.set.apply(actions);
                Ok(())
            }
            Err(AllocError) => {
                drop(actions);
                Err(AllocError)
            }
        }
    }

    // The set has room for actions, and what is due next is due as after them.
    fn watch_for(&mut self, actions: &[Action]) -> Result<(), AllocError>
        ensures { OnOk result (IsReadyFor actions.now self.old self.new) }
    {
        self.set.reserve(actions.len())?;
        self.watch.act(&self.mark, actions)
    }

    /// What comes of the commit next, where it was to enlist or to publish.
    #[tactic(auto, using(crate::proofs::CommitLaws::goes_nowhere))]
    pub(crate) fn go_on_committing(&mut self) -> Result<(), AllocError>
        ensures { OnOk result
            (GoesOn self.old.owed (record self.old { owed = ToShow.Nothing }) self.new) }
    {
        match mem::replace(&mut self.owed, ToShow::Nothing) {
            ToShow::Enlisting {
                actions,
                notes,
                ending,
            } => self.queue_or_settle(actions, notes, ending),
            ToShow::Queueing {
                actions,
                notes,
                ending,
            } => {
                drop(notes);
                self.settle(actions, ending)
            }
            owed => {
                self.owed.set(owed);
                Ok(())
            }
        }
    }

    /// The answer comes next; a listener whose set is empty leaves first.
    pub fn leave_or_answer(&mut self, ending: Ending)
        ensures { Leads self.old self.new (λ s. leaving_or_answering s (ending_of ending)) }
    {
        if self.is_to_leave() {
            self.owed.set(ToShow::Leaving { ending });
        } else {
            self.owed.set(ToShow::Answering { ending });
        }
    }
}

// An action listens.
fn some_listens(actions: &[Action]) -> bool
    ensures { result ≡ list_any is_listen actions.now }
{
    for action in actions {
        if listens(action) {
            return true;
        }
    }
    false
}

// This one does.
fn listens(action: &Action) -> bool
    ensures { result ≡ is_listen action.now }
{
    match action {
        Action::Listen(_) => true,
        Action::Unlisten(_) | Action::UnlistenAll => false,
    }
}

ghost use Rattle.std.specs.Prelude.{◌≡◌, ◌+◌, ◌<◌};
ghost use Rattle.pgn_words.specs.Words.{seats_of, wakes_at as first_wake, word_count};
ghost use Rattle.pgn_words.specs.Passes.{IsPassOf, view_of, shape_of};
ghost use Rattle.pgn_words.specs.Waking.{HasTaken, verdict_on, HasLookedToWake, wake_set};
ghost use Rattle.pgn_words.specs.declared.view.Listen.TheVariants as listens;
ghost use Rattle.pgn_words.specs.declared.view.Phase.TheVariants as phases;
ghost use Rattle.pgn_words.specs.declared.view.Verdict.TheVariants as verdicts;

use crate::pass::{WordPass, WordQueue};
use crate::plays::{SetWake, TakeWake, WakeLook};
use crate::pos_word::{PosWord, position_of};

impl WordQueue {
    // The word of a seat's wake. Seats count from 0.
    fn word_of_wake(&self, seat: u32) -> usize
        requires { seat < seats_of (shape_of self.now) }
        ensures value { result ≡ first_wake (shape_of self.now) + seat }
        ensures within { result < word_count (shape_of self.now) }
    {
        self.wakes_at + seat as usize
    }

    /// Takes the listener's wake: whether it was set. It is not set any more.
    ///
    /// - *listens*: a hub's `woken` asks its own caller for a listener.
    pub fn take_wake(&self, pass: &mut WordPass) -> bool
        requires own { IsPassOf self.now pass.old }
        requires listens { (view_of pass.old).post.listen ≡ listens.Registered }
        ensures own { IsPassOf self.now pass.new }
        ensures taken { HasTaken (view_of pass.old) result (view_of pass.new) }
    {
        let word = self.word_of_wake(pass.session.get() - 1);
        let found = self.table.shared.swap::<TakeWake>(&mut pass.seat, word, 0);
        let was_set = found != 0;
        pass.owes = was_set || pass.owes;
        was_set
    }

    /// The position of a seat, to see whether its session needs a wake.
    ///
    /// - *phase*: a writer calls it after `store_fin`.
    /// - *seat*, *unseen*: it looks at each seat once, from 0 on.
    pub fn wake_look(&self, pass: &mut WordPass, seat: u32) -> PosWord
        requires own { IsPassOf self.now pass.old }
        requires phase { (view_of pass.old).phase ≡ phases.Signalling }
        requires seat { seat < seats_of (shape_of self.now) }
        requires unseen { verdict_on (view_of pass.old) seat ≡ verdicts.Unseen }
        ensures own { IsPassOf self.now pass.new }
        ensures looked { HasLookedToWake (view_of pass.old) seat result (view_of pass.new) }
    {
        let word = self.word_of_position(seat);
        position_of(self.table.shared.load::<WakeLook>(&mut pass.seat, word))
    }

    /// Sets the wake of a seat.
    ///
    /// - *phase*: a writer calls it after `store_fin`.
    /// - *seat*, *needed*: it sets the wakes of those seats where its look has found a need, each once.
    pub fn set_wake(&self, pass: &mut WordPass, seat: u32)
        requires own { IsPassOf self.now pass.old }
        requires phase { (view_of pass.old).phase ≡ phases.Signalling }
        requires seat { seat < seats_of (shape_of self.now) }
        requires needed { verdict_on (view_of pass.old) seat ≡ verdicts.Needed }
        ensures own { IsPassOf self.now pass.new }
        ensures view { view_of pass.new ≡ wake_set seat (view_of pass.old) }
    {
        let word = self.word_of_wake(seat);
        self.table
            .shared
            .fetch_or::<SetWake>(&mut pass.seat, word, 1);
    }
}

ghost use Rattle.std.specs.Prelude.{◌≡◌, ◌+◌, ◌<◌};
ghost use Rattle.pgn_words.specs.Words.{seats_of, interests_at as first_interest, word_count};
ghost use Rattle.pgn_words.specs.Passes.{IsPassOf, view_of, shape_of};
ghost use Rattle.pgn_words.specs.Interests.{interested, interest_loaded};
ghost use Rattle.pgn_words.specs.declared.view.Listen.TheVariants as listens;
ghost use Rattle.pgn_words.specs.declared.view.Phase.TheVariants as phases;

use crate::pass::{WordPass, WordQueue};
use crate::plays::{Channels, LoadInterest, StoreInterest};
use pgn_listening::ListenSet;
use std::marker::Brand;

impl WordQueue {
    // The word of a seat's interest. Seats count from 0.
    fn word_of_interest(&self, seat: u32) -> usize
        requires { seat < seats_of (shape_of self.now) }
        ensures value { result ≡ first_interest (shape_of self.now) + seat }
        ensures within { result < word_count (shape_of self.now) }
    {
        self.interests_at + seat as usize
    }

    /// Tells the channels that the listener listens to. It owes a read, and a walk that it was on is given up: the walk's end may lie
    /// before a transaction that a writer did not wake it for, by the channels that it had told before.
    ///
    /// - *listens*: a hub's `interest` asks its own caller for a listener.
    pub fn store_interest(&self, pass: &mut WordPass, set: &ListenSet)
        requires own { IsPassOf self.now pass.old }
        requires listens { (view_of pass.old).post.listen ≡ listens.Registered }
        ensures own { IsPassOf self.now pass.new }
        ensures view { view_of pass.new ≡ interested set.now.channels (view_of pass.old) }
    {
        self.store_interest_as::<Brand>(pass, set);
    }

    // The same, where the proof is told of the channels.
    fn store_interest_as<G: Channels>(&self, pass: &mut WordPass, set: &ListenSet)
        requires given { G.channels ≡ set.now.channels }
        requires own { IsPassOf self.now pass.old }
        requires listens { (view_of pass.old).post.listen ≡ listens.Registered }
        ensures own { IsPassOf self.now pass.new }
        ensures view { view_of pass.new ≡ interested set.now.channels (view_of pass.old) }
    {
        let word = self.word_of_interest(pass.session.get() - 1);
        let bits = set.interest();
        self.table
            .shared
            .store::<StoreInterest<G>>(&mut pass.seat, word, bits);
        pass.owes = true;
    }

    /// The channels that the listener of a seat has told, a bit for each.
    ///
    /// - *phase*: a writer calls it after `store_fin`.
    /// - *seat*: it counts from 0.
    pub fn load_interest(&self, pass: &mut WordPass, seat: u32) -> u64
        requires own { IsPassOf self.now pass.old }
        requires phase { (view_of pass.old).phase ≡ phases.Signalling }
        requires seat { seat < seats_of (shape_of self.now) }
        ensures own { IsPassOf self.now pass.new }
        ensures view { view_of pass.new ≡ interest_loaded seat result (view_of pass.old) }
    {
        let word = self.word_of_interest(seat);
        self.table.shared.load::<LoadInterest>(&mut pass.seat, word)
    }
}

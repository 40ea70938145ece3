ghost use Rattle.std.specs.Prelude.{◌≡◌, ◌+◌, ◌^◌, ◌<◌};
ghost use Rattle.pgn_journal.specs.Packing.{place};
ghost use Rattle.pgn_words.specs.Words.{pos_at};
ghost use Rattle.pgn_words.specs.Passes.{IsPassOf, view_of, known_of, shape_of};
ghost use Rattle.pgn_words.specs.Listening.{joining, HasBase, registered, forwarded, left};
ghost use Rattle.pgn_words.specs.declared.view.Listen.TheVariants as listens;
ghost use Rattle.pgn_words.specs.declared.view.Phase.TheVariants as phases;
ghost use Rattle.pgn_words.specs.declared.view.Stage.TheVariants as stages;

use crate::meeting::later_of;
use crate::pass::{WordPass, WordQueue};
use crate::plays::{LoadBase, MarkJoining, StoreForward, StoreOut, StoreValid};
use crate::pos_word::{parts_of, word_of};
use crate::words::{POSITIONS, TAIL};
use pgn_base::{SessionNo, Xid};
use pgn_layout::Pos;

impl WordQueue {
    // The word of a session's own position.
    fn own_position(session: SessionNo) -> usize
        ensures { result + 1 ≡ pos_at + session }
    {
        POSITIONS + (session.get() as usize - 1)
    }

    /// Says that the session joins, so that nobody reclaims what it may still load.
    ///
    /// - *phase*: a hub's pass is free where `enlist` is called.
    /// - *out*: `enlist` asks its own caller for a session that is no listener.
    pub fn mark_joining(&self, pass: &mut WordPass)
        requires own { IsPassOf self.now pass.old }
        requires phase { (view_of pass.old).phase ≡ phases.Free }
        requires out { (view_of pass.old).post.listen ≡ listens.Out }
        ensures own { IsPassOf self.now pass.new }
        ensures view { view_of pass.new ≡ joining (view_of pass.old) }
    {
        let word = WordQueue::own_position(pass.session);
        self.table
            .shared
            .store::<MarkJoining>(&mut pass.seat, word, 1);
    }

    /// The announced tail, a mark and its place. It is the session's base from then on.
    ///
    /// - *joining*: a hub's `enlist` calls it next after `mark_joining`.
    pub fn load_base(&self, pass: &mut WordPass) -> (Xid, Pos)
        requires own { IsPassOf self.now pass.old }
        requires joining { (view_of pass.old).post.listen ≡ listens.Joining }
        ensures own { IsPassOf self.now pass.new }
        ensures base { HasBase (view_of pass.old) result.0 result.1 (view_of pass.new) }
        ensures low { result.1 < 2 ^ 32 }
    {
        let tail = self.table.shared.load::<LoadBase>(&mut pass.seat, TAIL);
        let (mark, pos) = parts_of(tail);
        pass.base = mark;
        pass.at = pos;
        (mark, pos)
    }

    /// Registers the session with its base. It owes a read.
    ///
    /// - *based*: a hub's `enlist` calls it next after `load_base`.
    /// - *low*: `load_base` tells it.
    pub fn store_valid(&self, pass: &mut WordPass)
        requires own { IsPassOf self.now pass.old }
        requires based { (view_of pass.old).post.listen ≡ listens.Based }
        requires low { (view_of pass.old).post.at < 2 ^ 32 }
        ensures own { IsPassOf self.now pass.new }
        ensures view { view_of pass.new ≡ registered (view_of pass.old) }
    {
        let word = WordQueue::own_position(pass.session);
        let position = word_of(pass.base, pass.at);
        self.table
            .shared
            .store::<StoreValid>(&mut pass.seat, word, position);
        pass.mark = Some(pass.base);
        pass.owes = true;
    }

    /// Moves a listener on to the mark that it went to, at the place to which its walk came.
    ///
    /// - *shown*: a hub's `scan` and `enlist` call it after `show_head`.
    /// - *mark*: it is what `begin_walk` has answered.
    /// - *place*: their walk goes from entry to entry until the number of one is not below that mark, or to the loaded head.
    /// - *low*: it is no later than the loaded head, of which `show_head` tells it.
    pub fn store_forward(&self, pass: &mut WordPass, mark: Xid, pos: Pos)
        requires own { IsPassOf self.now pass.old }
        requires shown { (view_of pass.old).walk.stage ≡ stages.Shown }
        requires mark { mark ≡ (view_of pass.old).walk.upto }
        requires place { pos ≡ place (shape_of self.now).format (known_of pass.old).seen mark }
        requires low { pos < 2 ^ 32 }
        ensures own { IsPassOf self.now pass.new }
        ensures view { view_of pass.new ≡ forwarded pos (view_of pass.old) }
    {
        let word = WordQueue::own_position(pass.session);
        let position = word_of(mark, pos);
        self.table
            .shared
            .store::<StoreForward>(&mut pass.seat, word, position);
        pass.mark = Some(mark);
        pass.told = later_of(pass.told, mark);
        pass.base = mark;
        pass.at = pos;
        pass.owes = false;
    }

    /// Makes a listener none.
    ///
    /// - *listens*: a hub's `leave` asks its own caller for a listener; `close` calls it where the pass has a mark.
    pub fn store_out(&self, pass: &mut WordPass)
        requires own { IsPassOf self.now pass.old }
        requires listens { (view_of pass.old).post.listen ≡ listens.Registered }
        ensures own { IsPassOf self.now pass.new }
        ensures view { view_of pass.new ≡ left (view_of pass.old) }
    {
        let word = WordQueue::own_position(pass.session);
        self.table.shared.store::<StoreOut>(&mut pass.seat, word, 0);
        pass.mark = None;
    }
}

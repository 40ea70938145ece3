ghost use Rattle.std.specs.Prelude.{◌≡◌, ℕ, ◌≤◌, true, slice_get, Some};
ghost use Rattle.pgn_journal.specs.Packing.{image};
ghost use Rattle.pgn_words.specs.Words.{cell_word, IsCellWord};
ghost use Rattle.pgn_words.specs.Views.{is_walking};
ghost use Rattle.pgn_words.specs.Passes.{IsPassOf, view_of, shape_of};
ghost use Rattle.pgn_words.specs.Listening.{HasBegun, HasShown};
ghost use Rattle.pgn_words.specs.declared.view.Listen.TheVariants as listens;
ghost use Rattle.pgn_words.specs.declared.view.Phase.TheVariants as phases;
ghost use Rattle.pgn_words.specs.declared.view.Stage.TheVariants as stages;

use crate::pass::{WordPass, WordQueue};
use crate::plays::{BeginWalk, LoadShown, ShowHead};
use crate::words::{FIN, HEAD};
use pgn_base::Xid;
use pgn_layout::Pos;

impl WordQueue {
    /// Loads the first unfinished number, to which a listener goes from its mark. A way that was begun before is given up.
    ///
    /// - *phase*: a hub's pass is free where `scan` or `enlist` is called.
    /// - *listens*: `scan` asks its own caller for a listener, and `enlist` calls it next after `store_valid`.
    pub fn begin_walk(&self, pass: &mut WordPass) -> Xid
        requires own { IsPassOf self.now pass.old }
        requires phase { (view_of pass.old).phase ≡ phases.Free }
        requires listens { (view_of pass.old).post.listen ≡ listens.Registered }
        ensures own { IsPassOf self.now pass.new }
        ensures begun { HasBegun (view_of pass.old) result (view_of pass.new) }
    {
        let fin = self.table.shared.load::<BeginWalk>(&mut pass.seat, FIN);
        Xid::new(fin as u32)
    }

    /// Loads the head, up to which the cells can be read from the listener's mark on.
    ///
    /// - *walks*: a hub's `scan` and `enlist` call it next after `begin_walk`: only so does the head show all that the listener goes
    ///   to.
    pub fn show_head(&self, pass: &mut WordPass) -> Pos
        requires own { IsPassOf self.now pass.old }
        requires walks { is_walking (view_of pass.old).walk.stage ≡ true }
        ensures own { IsPassOf self.now pass.new }
        ensures shown { HasShown (view_of pass.old) result (view_of pass.new) }
    {
        Pos::new(self.table.shared.load::<ShowHead>(&mut pass.seat, HEAD))
    }

    /// A cell that the loaded head shows, by the number of its word.
    ///
    /// - *shown*: a hub's `scan` and `enlist` ask for cells after `show_head`, from the listener's mark up to the head.
    /// - *word*: they have the number from `word_of_cell` and `next_word`.
    pub fn load_shown(&self, pass: &mut WordPass, word: usize) -> u32
        requires own { IsPassOf self.now pass.old }
        requires shown { (view_of pass.old).walk.stage ≡ stages.Shown }
        requires word { IsCellWord (shape_of self.now) word }
        ensures own { IsPassOf self.now pass.new }
        ensures view { view_of pass.new ≡ view_of pass.old }
        ensures value { (at x : ℕ) → word ≡ cell_word (shape_of self.now) at
            → (view_of pass.old).post.at ≤ at
            → slice_get (image (shape_of self.now).format (view_of pass.old).walk.shown) at
            ≡ Some (Some x) → result ≡ x }
    {
        self.table.shared.load::<LoadShown>(&mut pass.seat, word) as u32
    }
}

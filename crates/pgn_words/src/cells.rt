ghost use Rattle.std.specs.Prelude.{◌≡◌, ℕ, ◌+◌, ◌^◌, ◌<◌, ◌≤◌, length};
ghost use Rattle.pgn_journal.specs.Packing.{page_of, page_start, image};
ghost use Rattle.pgn_words.specs.Words.{cell_word, IsCellWord};
ghost use Rattle.pgn_words.specs.Passes.{IsPassOf, view_of, known_of, shape_of};
ghost use Rattle.pgn_words.specs.Views.{stored_by};
ghost use Rattle.pgn_words.specs.Told.{head_known, stop_known, cell_stored, head_stored, MayShow};
ghost use Rattle.pgn_words.specs.declared.view.Phase.TheVariants as phases;

use crate::pass::{WordPass, WordQueue};
use crate::plays::{LoadHead, LoadStop, StoreCell, StoreHead};
use crate::words::{HEAD, STOP};
use pgn_layout::Pos;

impl WordQueue {
    /// The number of a cell's word. There is one page of such words more than the limit, or as many as can be
    /// filled where these are fewer, and they are used again and again.
    pub fn word_of_cell(&self, at: Pos) -> usize
        ensures value { result ≡ cell_word (shape_of self.now) at }
        ensures word { IsCellWord (shape_of self.now) result }
    {
        self.cells_at + (at.get() % self.room) as usize
    }

    /// The number of the next cell's word, from that of a cell. So who goes from cell to cell divides once.
    pub fn next_word(&self, word: usize) -> usize
        requires { IsCellWord (shape_of self.now) word }
        ensures value { (at : ℕ) → word ≡ cell_word (shape_of self.now) at
            → result ≡ cell_word (shape_of self.now) (at + 1) }
        ensures word { IsCellWord (shape_of self.now) result }
    {
        let next = word + 1;
        if next < self.end { next } else { self.cells_at }
    }

    /// The place after the last written cell, behind the whole journal. The holder knows it from then on.
    ///
    /// - *phase*: a hub's `publish` and `usage` call it first of all under the lock.
    pub fn load_head(&self, pass: &mut WordPass) -> Pos
        requires own { IsPassOf self.now pass.old }
        requires phase { (view_of pass.old).phase ≡ phases.Held }
        ensures own { IsPassOf self.now pass.new }
        ensures view { view_of pass.new ≡ head_known (view_of pass.old) }
        ensures head { result ≡ length (image (shape_of self.now).format (known_of pass.old).seen) }
        ensures low { result < 2 ^ 32 }
    {
        Pos::new(self.table.shared.load::<LoadHead>(&mut pass.seat, HEAD))
    }

    /// The oldest kept page. The holder knows it from then on.
    ///
    /// - *phase*: they call it next after `load_head`.
    pub fn load_stop(&self, pass: &mut WordPass) -> u64
        requires own { IsPassOf self.now pass.old }
        requires phase { (view_of pass.old).phase ≡ phases.Headed }
        ensures own { IsPassOf self.now pass.new }
        ensures view { view_of pass.new ≡ stop_known result (view_of pass.old) }
        ensures ahead { length (image (shape_of self.now).format (known_of pass.old).seen)
            ≤ page_start (result + (shape_of self.now).pages) }
    {
        self.table.shared.load::<LoadStop>(&mut pass.seat, STOP)
    }

    /// Stores the next cell past the head. It is seen by nobody until the head moves past it.
    ///
    /// - *phase*: a writer stores cells after `draw_xid` and before `set_status`.
    /// - *next*: it goes from the word of the head that it knows word by word.
    /// - *page*: it begins a batch only where the head's page is less than the limit past the oldest kept one.
    /// - *stays*: a batch stays on its page.
    pub fn store_cell(&self, pass: &mut WordPass, word: usize, value: u32)
        requires own { IsPassOf self.now pass.old }
        requires phase { (view_of pass.old).phase ≡ phases.Open }
        requires next { word ≡ cell_word (shape_of self.now)
            (length (stored_by (view_of pass.old))) }
        requires page { page_of (length (stored_by (view_of pass.old)))
            < (view_of pass.old).stop + (shape_of self.now).pages }
        requires stays { page_of (length (stored_by (view_of pass.old)))
            ≡ page_of (length (view_of pass.old).pen.cells) }
        ensures own { IsPassOf self.now pass.new }
        ensures view { view_of pass.new ≡ cell_stored value (view_of pass.old) }
    {
        self.table
            .shared
            .store::<StoreCell>(&mut pass.seat, word, u64::from(value));
    }

    /// Moves the head up to a place, so that all cells before it are seen.
    ///
    /// - *phase*: a writer calls it after each batch, before `set_status`.
    /// - *shows*: it has stored a planned batch; by the laws of `pgn_layout` the cells are then the image of the journal and its draft.
    pub fn store_head(&self, pass: &mut WordPass, to: Pos)
        requires own { IsPassOf self.now pass.old }
        requires phase { (view_of pass.old).phase ≡ phases.Open }
        requires shows { MayShow (view_of pass.old) to }
        ensures own { IsPassOf self.now pass.new }
        ensures view { view_of pass.new ≡ head_stored to (view_of pass.old) }
        ensures low { to < 2 ^ 32 }
    {
        self.table
            .shared
            .store::<StoreHead>(&mut pass.seat, HEAD, to.get());
    }
}

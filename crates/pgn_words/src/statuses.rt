ghost use Rattle.std.specs.Prelude.{◌≡◌, ◌+◌, ◌<◌, ◌≤◌, Some, length};
ghost use Rattle.pgn_base.specs.declared.limits.TheConstants.{FIRST_XID};
ghost use Rattle.pgn_journal.specs.declared.tx.Tx.{Tx};
ghost use Rattle.pgn_journal.specs.Journal.{next_xid, entry};
ghost use Rattle.pgn_journal.specs.Pieces.{draft};
ghost use Rattle.pgn_hub.specs.Shape.{notes_of_seats};
ghost use Rattle.pgn_layout.specs.Status.{status_word};
ghost use Rattle.pgn_words.specs.Words.{statuses_at as first_status, word_count};
ghost use Rattle.pgn_words.specs.Passes.{IsPassOf, view_of, known_of, shape_of};
ghost use Rattle.pgn_words.specs.Told.{MayEnd, ended_by, fin_stored, HasHeard};
ghost use Rattle.pgn_words.specs.declared.view.Phase.TheVariants as phases;

use crate::pass::{WordPass, WordQueue};
use crate::plays::{Ending, LoadFin, LoadStatus, SetStatus, StoreFin};
use crate::words::{FIN, STATUSES_A_WORD};
use pgn_base::{FIRST_XID, Xid};
use pgn_journal::Fate;
use pgn_layout::{status_bits, status_of};
use std::marker::Brand;

impl WordQueue {
    // The word of a status, where the notifications that may be sent reach so far.
    fn word_of_status(&self, xid: Xid) -> usize
        requires reach { xid < FIRST_XID + notes_of_seats (shape_of self.now).seats }
        ensures value { result ≡ first_status (shape_of self.now) + status_word xid }
        ensures within { result < word_count (shape_of self.now) }
    {
        self.statuses_at + (xid.get() - FIRST_XID) as usize / STATUSES_A_WORD
    }

    /// Sets the status of the transaction, of whose notifications so many were queued.
    ///
    /// - *phase*: a writer calls it once, after its last batch.
    /// - *number*, *reach*: it has the number from `draw_xid`, which tells both.
    /// - *ends*: it has shown all that it stored, and what the head shows is the journal and the transaction as it ends: a fact of how
    ///   it went from batch to batch. It aborts only after an advance that found no page.
    pub fn set_status(&self, pass: &mut WordPass, xid: Xid, fate: Fate, queued: u32)
        requires own { IsPassOf self.now pass.old }
        requires phase { (view_of pass.old).phase ≡ phases.Open }
        requires number { xid ≡ next_xid (known_of pass.old).seen }
        requires reach { length (known_of pass.old).seen
            < notes_of_seats (shape_of self.now).seats }
        requires ends { MayEnd (view_of pass.old)
            (draft (known_of pass.old).session (known_of pass.old).db
            (view_of pass.old).pen.notes queued fate) }
        ensures own { IsPassOf self.now pass.new }
        ensures view { view_of pass.new
            ≡ ended_by (draft (known_of pass.old).session (known_of pass.old).db
            (view_of pass.old).pen.notes queued fate) (view_of pass.old) }
    {
        self.set_status_as::<Brand>(pass, xid, fate, queued);
    }

    // The same, where the proof is told of the transaction.
    fn set_status_as<G: Ending>(&self, pass: &mut WordPass, xid: Xid, fate: Fate, queued: u32)
        requires given { G.tx
            ≡ draft (known_of pass.old).session (known_of pass.old).db (view_of pass.old).pen.notes
            queued fate }
        requires own { IsPassOf self.now pass.old }
        requires phase { (view_of pass.old).phase ≡ phases.Open }
        requires number { xid ≡ next_xid (known_of pass.old).seen }
        requires reach { length (known_of pass.old).seen
            < notes_of_seats (shape_of self.now).seats }
        requires ends { MayEnd (view_of pass.old)
            (draft (known_of pass.old).session (known_of pass.old).db
            (view_of pass.old).pen.notes queued fate) }
        ensures own { IsPassOf self.now pass.new }
        ensures view { view_of pass.new
            ≡ ended_by (draft (known_of pass.old).session (known_of pass.old).db
            (view_of pass.old).pen.notes queued fate) (view_of pass.old) }
    {
        let word = self.word_of_status(xid);
        self.table
            .shared
            .fetch_or::<SetStatus<G>>(&mut pass.seat, word, status_bits(xid, fate));
    }

    /// Makes the transaction one of the journal.
    ///
    /// - *phase*: a writer calls it next after `set_status`.
    /// - *number*: it has the number from `draw_xid`.
    pub fn store_fin(&self, pass: &mut WordPass, xid: Xid)
        requires own { IsPassOf self.now pass.old }
        requires phase { (view_of pass.old).phase ≡ phases.Finished }
        requires number { xid ≡ next_xid (known_of pass.old).seen }
        ensures own { IsPassOf self.now pass.new }
        ensures view { view_of pass.new ≡ fin_stored (view_of pass.old) }
    {
        let next = u64::from(xid.get()) + 1;
        self.table
            .shared
            .store::<StoreFin>(&mut pass.seat, FIN, next);
        pass.ended = Some(Xid::new(next as u32));
    }

    /// The first unfinished number. The pass then knows the journal up to it.
    pub fn load_fin(&self, pass: &mut WordPass) -> Xid
        requires own { IsPassOf self.now pass.old }
        ensures own { IsPassOf self.now pass.new }
        ensures heard { HasHeard (view_of pass.old) result (view_of pass.new) }
    {
        let fin = self.table.shared.load::<LoadFin>(&mut pass.seat, FIN);
        Xid::new(fin as u32)
    }

    /// How a finished transaction ended.
    ///
    /// - *below*: a reader asks for numbers of entries below the first unfinished number that it has loaded.
    /// - *reach*: `load_fin` and `begin_walk` tell it.
    pub fn load_status(&self, pass: &mut WordPass, xid: Xid) -> Fate
        requires own { IsPassOf self.now pass.old }
        requires below { xid < next_xid (known_of pass.old).seen }
        requires reach { length (known_of pass.old).seen
            ≤ notes_of_seats (shape_of self.now).seats }
        ensures own { IsPassOf self.now pass.new }
        ensures view { view_of pass.new ≡ view_of pass.old }
        ensures fate { (tx : Tx) → entry (known_of pass.old).seen xid ≡ Some tx → result ≡ tx.fate }
    {
        let word = self.word_of_status(xid);
        let statuses = self.table.shared.load::<LoadStatus>(&mut pass.seat, word);
        if status_of(statuses, xid) == 1 {
            Fate::Committed
        } else {
            Fate::Aborted
        }
    }
}

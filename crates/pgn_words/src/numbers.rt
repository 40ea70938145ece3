ghost use Rattle.std.specs.Prelude.{◌≡◌, ◌≢◌, ◌≤◌, ◌<◌, [], length, All, AllPairs};
ghost use Rattle.pgn_base.specs.Notes.{IsNote};
ghost use Rattle.pgn_journal.specs.Journal.{next_xid};
ghost use Rattle.pgn_hub.specs.Shape.{notes_of_seats};
ghost use Rattle.pgn_words.specs.Passes.{IsPassOf, view_of, known_of, shape_of};
ghost use Rattle.pgn_words.specs.Told.{drawn};
ghost use Rattle.pgn_words.specs.declared.view.Phase.TheVariants as phases;

use crate::pass::{WordPass, WordQueue};
use crate::plays::{DrawXid, Given};
use crate::words::XID;
use pgn_base::{Note, Xid};
use std::marker::Brand;

impl WordQueue {
    /// Draws the number of a transaction of these notifications, which have no repeats. They are taken from those that the session may
    /// still send.
    ///
    /// - *phase*: a writer calls it next after `load_stop`.
    /// - *some*, *different*, *few*: a hub's `publish` asks its own caller for the same.
    /// - *valid*: `are_notes` says so, which `publish` calls before it takes the lock.
    pub fn draw_xid(&self, pass: &mut WordPass, notes: &[Note]) -> Xid
        requires own { IsPassOf self.now pass.old }
        requires phase { (view_of pass.old).phase ≡ phases.Ready }
        requires some { notes.now ≢ [] }
        requires valid { All IsNote notes.now }
        requires different { AllPairs (λ a b. a ≢ b) notes.now }
        requires few { length notes.now ≤ (known_of pass.old).notes_left }
        ensures own { IsPassOf self.now pass.new }
        ensures view { view_of pass.new ≡ drawn notes.now (view_of pass.old) }
        ensures number { result ≡ next_xid (known_of pass.old).seen }
        ensures reach { length (known_of pass.old).seen < notes_of_seats (shape_of self.now).seats }
    {
        self.draw_as::<Brand>(pass, notes)
    }

    // The same, where the proof is told of the notifications.
    fn draw_as<G: Given>(&self, pass: &mut WordPass, notes: &[Note]) -> Xid
        requires given { G.notes ≡ notes.now }
        requires own { IsPassOf self.now pass.old }
        requires phase { (view_of pass.old).phase ≡ phases.Ready }
        requires some { notes.now ≢ [] }
        requires valid { All IsNote notes.now }
        requires different { AllPairs (λ a b. a ≢ b) notes.now }
        requires few { length notes.now ≤ (known_of pass.old).notes_left }
        ensures own { IsPassOf self.now pass.new }
        ensures view { view_of pass.new ≡ drawn notes.now (view_of pass.old) }
        ensures number { result ≡ next_xid (known_of pass.old).seen }
        ensures reach { length (known_of pass.old).seen < notes_of_seats (shape_of self.now).seats }
    {
        let left = pass.notes_left;
        let xid = self
            .table
            .shared
            .fetch_add::<DrawXid<G>>(&mut pass.seat, XID, 1);
        pass.notes_left = left - notes.len() as u32;
        Xid::new(xid as u32)
    }
}

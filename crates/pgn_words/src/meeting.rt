ghost use Rattle.std.specs.Prelude.{◌≡◌, ◌&&◌, ◌||◌, nat_lt, max};
ghost use Rattle.pgn_words.specs.Passes.{IsPassOf, IsNoteOf, view_of, noted_view};
ghost use Rattle.pgn_words.specs.Told.{noted, joined};

use crate::pass::{WordNote, WordPass, WordQueue};
use crate::plays::{JoinNote, MakeNote};
use pgn_base::Xid;

// The later one of two numbers.
pub(crate) fn later_of(a: Xid, b: Xid) -> Xid
    ensures { result ≡ max a b }
{
    if a.get() < b.get() { b } else { a }
}

// Whether a read is owed once the pass is told up to a number: it was owed before, or a listener is told of more.
pub(crate) fn owes_after(owes: bool, listens: bool, told: Xid, now: Xid) -> bool
    ensures { result ≡ (owes || (listens && nat_lt told now)) }
{
    owes || (listens && told.get() < now.get())
}

impl WordQueue {
    /// What the pass knows of the journal and was told, for another pass.
    ///
    /// Two passes meet so: one writes a note, and the other joins it.
    pub fn split(&self, pass: &mut WordPass) -> WordNote
        requires own { IsPassOf self.now pass.old }
        ensures own { IsPassOf self.now pass.new }
        ensures view { view_of pass.new ≡ view_of pass.old }
        ensures note { IsNoteOf self.now result }
        ensures noted { noted_view result ≡ noted (view_of pass.old) }
    {
        let seat = self.table.shared.split_seat::<MakeNote>(&mut pass.seat);
        WordNote {
            seat,
            told: pass.told,
        }
    }

    /// The pass learns what is in the note. A holder of the lock knows the journal already.
    ///
    /// - *note*: a hub's `meet` has the note of another one of the hub's passes.
    pub fn join(&self, pass: &mut WordPass, note: WordNote)
        requires own { IsPassOf self.now pass.old }
        requires note { IsNoteOf self.now note }
        ensures own { IsPassOf self.now pass.new }
        ensures view { view_of pass.new ≡ joined (view_of pass.old) (noted_view note) }
    {
        let WordNote { seat, told } = note;
        self.table
            .shared
            .join_seat::<JoinNote>(&mut pass.seat, seat);
        pass.owes = owes_after(pass.owes, pass.mark.is_some(), pass.told, told);
        pass.told = later_of(pass.told, told);
    }
}

ghost use Rattle.std.specs.Prelude.{◌≡◌, ◌+◌, ◌^◌, ◌<◌, ◌≤◌, length, true, false, None, is_some, IfSome};
ghost use Rattle.pgn_base.specs.declared.limits.TheConstants.{PID_BASE};
ghost use Rattle.pgn_journal.specs.Journal.{next_xid};
ghost use Rattle.pgn_journal.specs.Bytes.{entry_length, filler, IsEntryLength};
ghost use Rattle.pgn_journal.specs.Packing.{page_of, page_start, cells_in, filled_cells, image, HasRoom};
ghost use Rattle.pgn_layout.specs.Batches.{IsPlanned, entry_of, batch_cells};
ghost use Rattle.pgn_words.specs.Passes.{IsPassOf, view_of, known_of};
ghost use Rattle.pgn_words.specs.Positions.{listens_at};
ghost use Rattle.pgn_words.specs.Views.{stored_by, may_look, AreDecided};
ghost use Rattle.pgn_words.specs.declared.view.Phase.TheVariants as phases;
ghost use Rattle.pgn_wordhub.specs.Passes.{hub_shape};
ghost use Rattle.pgn_wordhub.specs.Advancing.{advanced_view, HasAdvancedTo};
ghost use Rattle.pgn_wordhub.specs.Placing.{stored_more, writer_of, IsPlacing, HasWritten, IsHeldUp, placed_view};

use crate::WordHub;
use crate::floor::Floor;
use crate::looks::Extent;
use pgn_base::{CELL_BYTES, Note, PID_BASE, Xid};
use pgn_entry::{EntryCells, filler_cell};
use pgn_hub::PassView;
use pgn_layout::{Batch, Pos, plan_batch};
use pgn_words::WordPass;
use std::sync::Wait;

/// How far a writer has come: the head, the oldest kept page, and how many notifications it has placed.
#[derive(Clone, Copy)]
pub(crate) struct Placing {
    pub at: Pos,
    pub stop: u64,
    pub placed: usize,
}

/// The transaction that a pass writes: its notifications, the bits of the channels that they are on, its number, and the place from which
/// it is written.
#[derive(Clone, Copy)]
pub(crate) struct OwnTx<'a> {
    pub notes: &'a [Note],
    pub sent: u64,
    pub xid: Xid,
    pub from: Pos,
}

impl WordHub {
    // The process number of a pass's session.
    fn pid(pass: &WordPass) -> u32
        ensures { result ≡ PID_BASE + (known_of pass.now).session }
    {
        PID_BASE + pass.session().get()
    }

    // Stores the entry of a notification, and answers the place behind it.
    fn write_note(&self, pass: &mut WordPass, at: Pos, note: &Note, xid: Xid) -> Pos
        requires own { IsPassOf self.now.queue pass.old }
        requires phase { (view_of pass.old).phase ≡ phases.Open }
        requires next { at ≡ length (stored_by (view_of pass.old)) }
        requires xid { xid ≡ next_xid (known_of pass.old).seen }
        requires pages { at + cells_in (entry_length self.now.format note.now)
            ≤ page_start ((view_of pass.old).stop + (hub_shape self.now).pages) }
        requires stays { at + cells_in (entry_length self.now.format note.now)
            ≤ page_start (page_of (length (view_of pass.old).pen.cells) + 1) }
        requires low { at ≤ 2 ^ 32 }
        ensures own { IsPassOf self.now.queue pass.new }
        ensures view { view_of pass.new
            ≡ stored_more (entry_of self.now.format (writer_of (known_of pass.old)) note.now)
            (view_of pass.old) }
        ensures end { result ≡ at + length (entry_of self.now.format (writer_of (known_of pass.old))
            note.now) }
    {
        let format = self.format;
        let db = pass.db();
        let pid = WordHub::pid(pass);
        let entry = EntryCells::of(format, note, db, xid, pid);
        let cells = entry.len as usize / CELL_BYTES;
        let mut word = self.queue.word_of_cell(at);
        for k in 0..cells {
            let cell = entry.cell(format, k);
            self.queue.store_cell(pass, word, cell);
            word = self.queue.next_word(word);
        }
        Pos::new(at.get() + cells as u64)
    }

    // Stores a filler of so many bytes.
    fn write_filler(&self, pass: &mut WordPass, at: Pos, xid: Xid, len: u32)
        requires own { IsPassOf self.now.queue pass.old }
        requires phase { (view_of pass.old).phase ≡ phases.Open }
        requires next { at ≡ length (stored_by (view_of pass.old)) }
        requires long { IsEntryLength self.now.format len }
        requires pages { at + cells_in len
            ≤ page_start ((view_of pass.old).stop + (hub_shape self.now).pages) }
        requires stays { at + cells_in len
            ≤ page_start (page_of (length (view_of pass.old).pen.cells) + 1) }
        requires low { at ≤ 2 ^ 32 }
        ensures own { IsPassOf self.now.queue pass.new }
        ensures view { view_of pass.new
            ≡ stored_more (filled_cells (filler self.now.format len xid
            (PID_BASE + (known_of pass.old).session))) (view_of pass.old) }
    {
        let format = self.format;
        let pid = WordHub::pid(pass);
        let cells = len as usize / CELL_BYTES;
        let mut word = self.queue.word_of_cell(at);
        for k in 0..cells {
            let cell = filler_cell(format, len, xid, pid, k);
            self.queue.store_cell(pass, word, cell);
            word = self.queue.next_word(word);
        }
    }

    // Stores the next batch of the notifications that are left, from a place on, and answers it.
    fn write_batch(&self, pass: &mut WordPass, at: Pos, notes: &[Note], xid: Xid) -> Batch
        requires own { IsPassOf self.now.queue pass.old }
        requires phase { (view_of pass.old).phase ≡ phases.Open }
        requires next { at ≡ length (stored_by (view_of pass.old)) }
        requires xid { xid ≡ next_xid (known_of pass.old).seen }
        requires begins { at ≡ length (view_of pass.old).pen.cells }
        requires room { HasRoom self.now.format at }
        requires pages { page_of at < (view_of pass.old).stop + (hub_shape self.now).pages }
        requires low { at < 2 ^ 32 }
        ensures own { IsPassOf self.now.queue pass.new }
        ensures planned { IsPlanned self.now.format at notes.now result }
        ensures within { result.fits ≤ length notes.now }
        ensures view { view_of pass.new
            ≡ stored_more (batch_cells self.now.format (writer_of (known_of pass.old)) notes.now
            result) (view_of pass.old) }
    {
        let batch = plan_batch(self.format, at, notes);
        let mut next = at;
        for note in &notes[..batch.fits] {
            next = self.write_note(pass, next, note, xid);
        }
        if batch.filler > 0 {
            self.write_filler(pass, next, xid, batch.filler);
        }
        batch
    }

    // There is a page for the head, where this is the oldest kept one.
    fn has_page(&self, at: Pos, stop: u64) -> bool
        ensures some { result ≡ true → page_of at < stop + (hub_shape self.now).pages }
        ensures none { result ≡ false → stop + (hub_shape self.now).pages ≤ page_of at }
    {
        at.page().saturating_sub(stop) < u64::from(self.pages)
    }

    // Finds a page for the head: where there is none it advances the tail once. Answers the oldest kept page, and what holds the head up
    // where there is no page still.
    fn find_page<R: Wait>(
        &self,
        rt: &R,
        pass: &mut WordPass,
        tx: &OwnTx,
        placing: &Placing,
    ) -> (u64, Option<Floor>)
        requires own { IsPassOf self.now.queue pass.old }
        requires phase { may_look (view_of pass.old).phase ≡ true }
        requires decided { AreDecided (view_of pass.old).verdicts }
        requires number { tx.now.xid ≡ next_xid (known_of pass.old).seen }
        requires start { tx.now.from
            ≡ length (image (hub_shape self.now).format (known_of pass.old).seen) }
        requires low { tx.now.from < 2 ^ 32 }
        requires listens { (known_of pass.old).mark ≡ listens_at (view_of pass.old).post }
        requires stop { placing.now.stop ≡ (view_of pass.old).stop }
        ensures own { IsPassOf self.now.queue pass.new }
        ensures view { view_of pass.new ≡ advanced_view (view_of pass.new) (view_of pass.old) }
        ensures writes { HasWritten (view_of pass.old) (view_of pass.new) }
        ensures at_once { page_of placing.now.at < placing.now.stop + (hub_shape self.now).pages
            → view_of pass.new ≡ view_of pass.old }
        ensures grows { (view_of pass.old).stop ≤ (view_of pass.new).stop }
        ensures stop { result.0 ≡ (view_of pass.new).stop }
        ensures page { is_some result.1 ≡ false
            → page_of placing.now.at < result.0 + (hub_shape self.now).pages }
        ensures no_page { is_some result.1 ≡ true
            → result.0 + (hub_shape self.now).pages ≤ page_of placing.now.at }
        ensures held { IfSome result.1 (λ floor. HasAdvancedTo (hub_shape self.now)
            (view_of pass.old) (view_of pass.new) floor.mark floor.at floor.holder) }
    {
        if self.has_page(placing.at, placing.stop) {
            return (placing.stop, None);
        }
        let extent = Extent {
            number: tx.xid,
            head: tx.from,
            stop: placing.stop,
        };
        let (floor, stop) = self.advance(rt, pass, &extent);
        if self.has_page(placing.at, stop) {
            return (stop, None);
        }
        (stop, Some(floor))
    }

    // Writes the next batch of the notifications that are left.
    fn place_batch(&self, pass: &mut WordPass, tx: &OwnTx, placing: &mut Placing)
        requires own { IsPassOf self.now.queue pass.old }
        requires xid { tx.now.xid ≡ next_xid (known_of pass.old).seen }
        requires placing { IsPlacing (view_of pass.old) tx.now.notes.now placing.old.placed
            placing.old.at }
        requires left { placing.old.placed < length tx.now.notes.now }
        requires stop { placing.old.stop ≡ (view_of pass.old).stop }
        requires pages { page_of placing.old.at < placing.old.stop + (hub_shape self.now).pages }
        ensures own { IsPassOf self.now.queue pass.new }
        ensures view { view_of pass.new ≡ placed_view (view_of pass.new) (view_of pass.old) }
        ensures placing { IsPlacing (view_of pass.new) tx.now.notes.now placing.new.placed
            placing.new.at }
        ensures within { placing.new.placed ≤ length tx.now.notes.now }
        ensures stop { placing.new.stop ≡ placing.old.stop }
    {
        let rest = &tx.notes[placing.placed..];
        let batch = self.write_batch(pass, placing.at, rest, tx.xid);
        self.queue.store_head(pass, batch.next);
        placing.at = batch.next;
        placing.placed += batch.fits;
    }

    // Writes all of the notifications, or those for which there are pages, and then answers what holds the others up.
    pub(crate) fn place_all<R: Wait>(
        &self,
        rt: &R,
        pass: &mut WordPass,
        tx: &OwnTx,
        placing: &mut Placing,
    ) -> Option<Floor>
        requires own { IsPassOf self.now.queue pass.old }
        requires xid { tx.now.xid ≡ next_xid (known_of pass.old).seen }
        requires placing { IsPlacing (view_of pass.old) tx.now.notes.now placing.old.placed
            placing.old.at }
        requires start { tx.now.from
            ≡ length (image (hub_shape self.now).format (known_of pass.old).seen) }
        requires low { tx.now.from < 2 ^ 32 }
        requires within { placing.old.placed ≤ length tx.now.notes.now }
        requires stop { placing.old.stop ≡ (view_of pass.old).stop }
        requires decided { AreDecided (view_of pass.old).verdicts }
        requires listens { (known_of pass.old).mark ≡ listens_at (view_of pass.old).post }
        ensures own { IsPassOf self.now.queue pass.new }
        ensures writes { HasWritten (view_of pass.old) (view_of pass.new) }
        ensures placing { IsPlacing (view_of pass.new) tx.now.notes.now placing.new.placed
            placing.new.at }
        ensures within { placing.new.placed ≤ length tx.now.notes.now }
        ensures stop { placing.new.stop ≡ (view_of pass.new).stop }
        ensures all { result ≡ None → placing.new.placed ≡ length tx.now.notes.now }
        ensures full { IfSome result (λ floor. IsHeldUp (hub_shape self.now) (view_of pass.old)
            (view_of pass.new) (length tx.now.notes.now) placing.new.placed placing.new.at
            floor.mark floor.at floor.holder) }
    {
        'batches: for _ in rt.forever() {
            if placing.placed >= tx.notes.len() {
                break;
            }
            let (stop, floor) = self.find_page(rt, pass, tx, placing);
            placing.stop = stop;
            if floor.is_some() {
                return floor;
            }
            self.place_batch(pass, tx, placing);
        }
        None
    }
}

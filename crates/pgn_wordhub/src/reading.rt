ghost use Rattle.std.specs.Int.{bit_at};
ghost use Rattle.std.specs.Prelude.{◌==◌, true, false, cond, ◌≡◌, ℕ, ◌+◌, ◌*◌, ◌^◌, ◌<◌, ◌≤◌, [], ◌∷◌, ◌++◌, ◌&&◌, length, take, slice_get, vec_len, Some, IsSome, List, IfOk, OnOk, OnErr};
ghost use Rattle.pgn_base.specs.declared.format.Format.{Format};
ghost use Rattle.pgn_base.specs.declared.note.Note.{Note};
ghost use Rattle.pgn_base.specs.declared.note.Delivery.{Delivery};
ghost use Rattle.pgn_base.specs.Names.{has_name};
ghost use Rattle.pgn_base.specs.Interest.{channel_bit, interest as interest_of};
ghost use Rattle.pgn_journal.specs.Bytes.{header_bytes, four_bytes};
ghost use Rattle.pgn_base.specs.declared.channels.TheConstants.{CHANNEL_BITS};
ghost use Rattle.pgn_journal.specs.Journal.{next_xid};
ghost use Rattle.pgn_journal.specs.Packing.{Sender, cells_in};
ghost use Rattle.pgn_journal.specs.Pieces.{Piece, AnEntry, piece_bytes, gives, committed_by};
ghost use Rattle.pgn_hub.specs.Shape.{notes_of_seats};
ghost use Rattle.pgn_hub.specs.Calls.{HasRead, HasLearned};
ghost use Rattle.pgn_words.specs.Words.{cell_word, IsCellWord};
ghost use Rattle.pgn_words.specs.Passes.{IsPassOf, view_of, known_of};
ghost use Rattle.pgn_words.specs.declared.view.Stage.TheVariants as stages;
ghost use Rattle.pgn_wordhub.specs.Passes.{IsHubPass, hub_shape};
ghost use Rattle.pgn_wordhub.specs.Walks.{StandsAt, IsCell, IsDueEntry, HasDueEntry, IsEntryAt, HasEntryAt, Walks, IsWalking, HasTurned, sum_to_zero, shown_cells};

use crate::WordHub;
use crate::parts::{delivery_of, entry_parts};
use byteorder::{ByteOrder, LittleEndian};
use pgn_base::{CELL_BYTES, CHANNEL_BITS, Delivery, Format, Xid};
use pgn_hub::PassView;
use pgn_journal::Fate;
use pgn_layout::{Pos, advance};
use pgn_listening::ListenSet;
use pgn_words::WordPass;
use std::alloc::{AllocError, Global};

/// An entry of so many bytes or fewer is put together on the stack.
const SHORT_BYTES: usize = 256;

/// The first three numbers of an entry or a filler.
#[derive(Clone, Copy)]
pub(crate) struct HeadCells {
    pub len: u32,
    pub db: u32,
    /// That of the transaction fits in the third cell, in both formats.
    pub xid: u32,
    /// The number of the third one's word, from which a reader goes on.
    pub word: usize,
}

// What a read asks for: what is due on these channels of what the hub shows in this format, from numbers below `fin`.
#[derive(Clone, Copy)]
struct Reader<'a> {
    hub: &'a WordHub,
    alloc: Global,
    format: Format,
    fin: Xid,
    set: &'a ListenSet,
    // The bits of the channels of the set.
    interest: u64,
    ghost bits: { interest ≡ interest_of set.now.channels },
}

impl WordHub {
    // One cell, by the number of its word.
    pub(crate) fn cell(&self, pass: &mut WordPass, word: usize) -> u32
        requires own { IsPassOf self.now.queue pass.old }
        requires shown { (view_of pass.old).walk.stage ≡ stages.Shown }
        requires word { IsCellWord (hub_shape self.now) word }
        ensures own { IsPassOf self.now.queue pass.new }
        ensures view { view_of pass.new ≡ view_of pass.old }
        ensures value { (at x : ℕ) → word ≡ cell_word (hub_shape self.now) at
            → (view_of pass.old).post.at ≤ at
            → slice_get (shown_cells (view_of pass.old)) at ≡ Some (Some x) → result ≡ x }
    {
        self.queue.load_shown(pass, word)
    }

    // The numbers at the head of the entry or the filler at a place.
    pub(crate) fn head_at(&self, pass: &mut WordPass, at: Pos) -> HeadCells
        requires own { IsPassOf self.now.queue pass.old }
        requires shown { (view_of pass.old).walk.stage ≡ stages.Shown }
        requires from { (view_of pass.old).post.at ≤ at }
        requires low { at + 2 < 2 ^ 64 }
        ensures own { IsPassOf self.now.queue pass.new }
        ensures view { view_of pass.new ≡ view_of pass.old }
        ensures len { IsCell (shown_cells (view_of pass.old)) (at + 0) result.len }
        ensures db { IsCell (shown_cells (view_of pass.old)) (at + 1) result.db }
        ensures xid { IsCell (shown_cells (view_of pass.old)) (at + 2) result.xid }
        ensures third { result.word ≡ cell_word (hub_shape self.now) (at + 2) }
        ensures word { IsCellWord (hub_shape self.now) result.word }
    {
        let first = self.queue.word_of_cell(at);
        let second = self.queue.next_word(first);
        let third = self.queue.next_word(second);
        let len = self.cell(pass, first);
        let db = self.cell(pass, second);
        let xid = self.cell(pass, third);
        HeadCells {
            len,
            db,
            xid,
            word: third,
        }
    }

    // The number of the word with which the channel of an entry begins, from that of its third cell.
    fn channel_word(&self, format: Format, third: usize) -> usize
        requires { IsCellWord (hub_shape self.now) third }
        ensures value { (at : ℕ) → third ≡ cell_word (hub_shape self.now) (at + 2)
            → result ≡ cell_word (hub_shape self.now) (at + cells_in (header_bytes format)) }
        ensures word { IsCellWord (hub_shape self.now) result }
    {
        let fourth = self.queue.next_word(third);
        let fifth = self.queue.next_word(fourth);
        match format {
            Format::One => fifth,
            Format::Two => {
                let sixth = self.queue.next_word(fifth);
                self.queue.next_word(sixth)
            }
        }
    }

    // Whether a finished transaction committed.
    fn committed(&self, pass: &mut WordPass, xid: Xid) -> bool
        requires own { IsPassOf self.now.queue pass.old }
        requires reach { length (known_of pass.old).seen
            ≤ notes_of_seats (hub_shape self.now).seats }
        requires below { xid < next_xid (known_of pass.old).seen }
        ensures own { IsPassOf self.now.queue pass.new }
        ensures view { view_of pass.new ≡ view_of pass.old }
        ensures committed { result ≡ committed_by (known_of pass.old).seen xid }
    {
        match self.queue.load_status(pass, xid) {
            Fate::Committed => true,
            Fate::Aborted => false,
        }
    }

    // Loads the bytes of the entry at a place.
    fn load_bytes(&self, pass: &mut WordPass, at: Pos, page: &mut [u8])
        requires own { IsPassOf self.now.queue pass.old }
        requires shown { (view_of pass.old).walk.stage ≡ stages.Shown }
        requires from { (view_of pass.old).post.at ≤ at }
        ensures own { IsPassOf self.now.queue pass.new }
        ensures view { view_of pass.new ≡ view_of pass.old }
        ensures bytes { (format : Format) (piece : Piece)
            → StandsAt format (shown_cells (view_of pass.old)) at piece
            → length page.old ≡ length (piece_bytes format piece)
            → page.new ≡ piece_bytes format piece }
        ensures page { length page.new ≡ length page.old }
    {
        let mut word = self.queue.word_of_cell(at);
        for k in 0..page.len() / CELL_BYTES {
            let cell = self.cell(pass, word);
            LittleEndian::write_u32(&mut page[CELL_BYTES * k..], cell);
            word = self.queue.next_word(word);
        }
    }

    // Reads from the mark up to the first unfinished number.
    pub(crate) fn read(
        &self,
        alloc: Global,
        pass: &mut WordPass,
        set: &ListenSet,
        out: &mut Vec<Delivery>,
    ) -> Result<Xid, AllocError>
        requires own { IsHubPass self.now pass.old }
        requires listens { IsSome (known_of pass.old).mark }
        ensures own { IsHubPass self.now pass.new }
        ensures read { IfOk result (λ to. HasRead (known_of pass.old) (known_of pass.new)
            set.now.channels to out.old.items out.new.items) }
        ensures refused { OnErr result (HasLearned (known_of pass.old) (known_of pass.new)) }
        ensures refused_reads_nothing { OnErr result (out.new.items ≡ out.old.items) }
    {
        let fin = self.queue.begin_walk(pass);
        let head = self.queue.show_head(pass);
        let before = out.len();
        let reader = Reader {
            hub: self,
            alloc,
            format: self.format,
            fin,
            set,
            interest: set.interest(),
        };
        match reader.walk(pass, pass.place(), head, out) {
            Ok(at) => {
                self.queue.store_forward(pass, fin, at);
                Ok(fin)
            }
            Err(AllocError) => {
                out.truncate(before);
                Err(AllocError)
            }
        }
    }
}

// So many cells stand before the channel of an entry.
fn head_cells(format: Format) -> usize
    ensures { result ≡ cells_in (header_bytes format) }
{
    match format {
        Format::One => 4,
        Format::Two => 6,
    }
}

// The sum of the bytes of a cell before the first zero byte, and whether there is one.
fn sum_of_cell(cell: u32) -> (u64, bool)
    ensures sum { (rest : List ℕ)
        → sum_to_zero (four_bytes cell ++ rest) ≡ result.0 + cond result.1 0 (sum_to_zero rest) }
    ensures low { result.0 < 1024 }
{
    let first = cell % 256;
    if first == 0 {
        return (0, true);
    }
    let second = cell / 256 % 256;
    if second == 0 {
        return (u64::from(first), true);
    }
    let third = cell / 65536 % 256;
    if third == 0 {
        return (u64::from(first + second), true);
    }
    let fourth = cell / 16777216 % 256;
    (u64::from(first + second + third + fourth), fourth == 0)
}

// Whether a number has a bit.
fn has_bit(word: u64, bit: u64) -> bool
    requires { bit < CHANNEL_BITS }
    ensures { result ≡ (bit_at word bit == 1) }
{
    (word >> bit) & 1 == 1
}

// Puts a delivery behind the others. A list that is empty gets room for this one alone, since most stay so.
fn add(out: &mut Vec<Delivery>, delivery: Delivery) -> Result<(), AllocError>
    ensures added { OnOk result (out.new.items ≡ out.old.items ++ delivery ∷ []) }
    ensures refused { OnErr result (out.new.items ≡ out.old.items) }
{
    if out.is_empty() {
        out.reserve_exact(1)?;
    }
    out.push(delivery)?;
    Ok(())
}

impl Reader<'_> {
    // Whether an entry of a finished transaction on a channel is received.
    fn is_due(&self, pass: &mut WordPass, xid: Xid, channel: &[u8]) -> bool
        requires own { IsPassOf self.now.hub.now.queue pass.old }
        requires reach { length (known_of pass.old).seen
            ≤ notes_of_seats (hub_shape self.now.hub.now).seats }
        requires below { xid < next_xid (known_of pass.old).seen }
        ensures own { IsPassOf self.now.hub.now.queue pass.new }
        ensures view { view_of pass.new ≡ view_of pass.old }
        ensures due { result ≡ (has_name self.now.set.now.channels channel.now && committed_by
            (known_of pass.old).seen xid) }
    {
        if !self.set.contains(channel) {
            return false;
        }
        self.hub.committed(pass, xid)
    }

    // Puts the entry that these bytes are behind `out`, if its channel is in the set and its transaction committed.
    fn deliver(
        &self,
        pass: &mut WordPass,
        bytes: &[u8],
        out: &mut Vec<Delivery>,
    ) -> Result<(), AllocError>
        requires own { IsPassOf self.now.hub.now.queue pass.old }
        requires reach { length (known_of pass.old).seen
            ≤ notes_of_seats (hub_shape self.now.hub.now).seats }
        requires entry { HasDueEntry self.now.format (known_of pass.old).db (known_of pass.old).seen
            bytes.now }
        ensures own { IsPassOf self.now.hub.now.queue pass.new }
        ensures view { view_of pass.new ≡ view_of pass.old }
        ensures delivered { OnOk result ((note : Note) (sender : Sender)
            → IsDueEntry self.now.format (known_of pass.old).db (known_of pass.old).seen bytes.now
            note sender
            → out.new.items ≡ out.old.items ++ gives (known_of pass.old).db
            self.now.set.now.channels (committed_by (known_of pass.old).seen)
            (AnEntry note sender)) }
        ensures refused { OnErr result (out.new.items ≡ out.old.items) }
    {
        // The number of a finished transaction has 32 bits.
        let parts = entry_parts(self.format, bytes);
        let xid = Xid::new(parts.xid as u32);
        if self.is_due(pass, xid, parts.channel) {
            let delivery = delivery_of(self.alloc, xid, parts.pid, parts.channel, parts.payload)?;
            add(out, delivery)?;
        }
        Ok(())
    }

    // Loads the entry that takes all of `bytes`, and puts it behind `out` if it is due.
    fn take_by(
        &self,
        pass: &mut WordPass,
        at: Pos,
        bytes: &mut [u8],
        out: &mut Vec<Delivery>,
    ) -> Result<(), AllocError>
        requires own { IsPassOf self.now.hub.now.queue pass.old }
        requires shown { (view_of pass.old).walk.stage ≡ stages.Shown }
        requires from { (view_of pass.old).post.at ≤ at }
        requires reach { length (known_of pass.old).seen
            ≤ notes_of_seats (hub_shape self.now.hub.now).seats }
        requires entry { HasEntryAt self.now.format (shown_cells (view_of pass.old)) at
            (length bytes.old) (known_of pass.old).db (known_of pass.old).seen }
        ensures own { IsPassOf self.now.hub.now.queue pass.new }
        ensures view { view_of pass.new ≡ view_of pass.old }
        ensures taken { OnOk result ((note : Note) (sender : Sender)
            → IsEntryAt self.now.format (shown_cells (view_of pass.old)) at (length bytes.old)
            (known_of pass.old).db (known_of pass.old).seen note sender
            → out.new.items ≡ out.old.items ++ gives (known_of pass.old).db
            self.now.set.now.channels (committed_by (known_of pass.old).seen)
            (AnEntry note sender)) }
        ensures refused { OnErr result (out.new.items ≡ out.old.items) }
    {
        self.hub.load_bytes(pass, at, bytes);
        self.deliver(pass, bytes, out)
    }

    // The same of an entry of so many bytes. A long one is put together on the heap, in no more memory than it has.
    fn take_whole(
        &self,
        pass: &mut WordPass,
        at: Pos,
        len: usize,
        out: &mut Vec<Delivery>,
    ) -> Result<(), AllocError>
        requires own { IsPassOf self.now.hub.now.queue pass.old }
        requires shown { (view_of pass.old).walk.stage ≡ stages.Shown }
        requires from { (view_of pass.old).post.at ≤ at }
        requires reach { length (known_of pass.old).seen
            ≤ notes_of_seats (hub_shape self.now.hub.now).seats }
        requires entry { HasEntryAt self.now.format (shown_cells (view_of pass.old)) at len
            (known_of pass.old).db (known_of pass.old).seen }
        ensures own { IsPassOf self.now.hub.now.queue pass.new }
        ensures view { view_of pass.new ≡ view_of pass.old }
        ensures taken { OnOk result ((note : Note) (sender : Sender)
            → IsEntryAt self.now.format (shown_cells (view_of pass.old)) at len
            (known_of pass.old).db (known_of pass.old).seen note sender
            → out.new.items ≡ out.old.items ++ gives (known_of pass.old).db
            self.now.set.now.channels (committed_by (known_of pass.old).seen)
            (AnEntry note sender)) }
        ensures refused { OnErr result (out.new.items ≡ out.old.items) }
    {
        if len <= SHORT_BYTES {
            let mut bytes = [0; SHORT_BYTES];
            return self.take_by(pass, at, &mut bytes[..len], out);
        }
        let mut bytes = vec![in self.alloc; 0; len]?;
        self.take_by(pass, at, &mut bytes, out)
    }

    // The bit of the channel of an entry of so many cells, from the number of its third cell's word.
    fn channel_bit_at(&self, pass: &mut WordPass, at: Pos, third: usize, cells: usize) -> u64
        requires own { IsPassOf self.now.hub.now.queue pass.old }
        requires shown { (view_of pass.old).walk.stage ≡ stages.Shown }
        requires from { (view_of pass.old).post.at ≤ at }
        requires third { third ≡ cell_word (hub_shape self.now.hub.now) (at + 2) }
        requires word { IsCellWord (hub_shape self.now.hub.now) third }
        ensures own { IsPassOf self.now.hub.now.queue pass.new }
        ensures view { view_of pass.new ≡ view_of pass.old }
        ensures bit { (note : Note) (sender : Sender)
            → StandsAt self.now.format (shown_cells (view_of pass.old)) at (AnEntry note sender)
            → length (piece_bytes self.now.format (AnEntry note sender)) ≡ 4 * cells
            → result ≡ channel_bit note.channel }
        ensures within { result < CHANNEL_BITS }
    {
        let mut word = self.hub.channel_word(self.format, third);
        let mut sum = 0;
        for k in head_cells(self.format)..cells {
            let cell = self.hub.cell(pass, word);
            let (more, ended) = sum_of_cell(cell);
            sum = (sum + more) % CHANNEL_BITS as u64;
            if ended {
                return sum;
            }
            word = self.hub.queue.next_word(word);
        }
        sum
    }

    // Whether the set has no channel with the bit of that of an entry of so many cells. Then the entry is on none of them.
    fn is_apart(&self, pass: &mut WordPass, at: Pos, third: usize, cells: usize) -> bool
        requires own { IsPassOf self.now.hub.now.queue pass.old }
        requires shown { (view_of pass.old).walk.stage ≡ stages.Shown }
        requires from { (view_of pass.old).post.at ≤ at }
        requires third { third ≡ cell_word (hub_shape self.now.hub.now) (at + 2) }
        requires word { IsCellWord (hub_shape self.now.hub.now) third }
        ensures own { IsPassOf self.now.hub.now.queue pass.new }
        ensures view { view_of pass.new ≡ view_of pass.old }
        ensures apart { result ≡ true → (note : Note) (sender : Sender)
            → StandsAt self.now.format (shown_cells (view_of pass.old)) at (AnEntry note sender)
            → length (piece_bytes self.now.format (AnEntry note sender)) ≡ 4 * cells
            → has_name self.now.set.now.channels note.channel ≡ false }
    {
        let bit = self.channel_bit_at(pass, at, third, cells);
        !has_bit(self.interest, bit)
    }

    // The same, but an entry on a channel whose bit no channel of the set has is passed by: most of the entries that a listener passes
    // on its way were not sent to it, and to put them together costs ten times as much.
    fn take(
        &self,
        pass: &mut WordPass,
        at: Pos,
        head: &HeadCells,
        out: &mut Vec<Delivery>,
    ) -> Result<(), AllocError>
        requires own { IsPassOf self.now.hub.now.queue pass.old }
        requires shown { (view_of pass.old).walk.stage ≡ stages.Shown }
        requires from { (view_of pass.old).post.at ≤ at }
        requires third { head.now.word ≡ cell_word (hub_shape self.now.hub.now) (at + 2) }
        requires word { IsCellWord (hub_shape self.now.hub.now) head.now.word }
        requires reach { length (known_of pass.old).seen
            ≤ notes_of_seats (hub_shape self.now.hub.now).seats }
        requires entry { HasEntryAt self.now.format (shown_cells (view_of pass.old)) at head.now.len
            (known_of pass.old).db (known_of pass.old).seen }
        ensures own { IsPassOf self.now.hub.now.queue pass.new }
        ensures view { view_of pass.new ≡ view_of pass.old }
        ensures taken { OnOk result ((note : Note) (sender : Sender)
            → IsEntryAt self.now.format (shown_cells (view_of pass.old)) at head.now.len
            (known_of pass.old).db (known_of pass.old).seen note sender
            → out.new.items ≡ out.old.items ++ gives (known_of pass.old).db
            self.now.set.now.channels (committed_by (known_of pass.old).seen)
            (AnEntry note sender)) }
        ensures refused { OnErr result (out.new.items ≡ out.old.items) }
    {
        let len = head.len as usize;
        if self.is_apart(pass, at, head.word, len / CELL_BYTES) {
            return Ok(());
        }
        self.take_whole(pass, at, len, out)
    }

    // Reads the entry or the filler at a place, and answers the place of the next one; or none, if its number is not below `fin`.
    fn turn(
        &self,
        pass: &mut WordPass,
        at: Pos,
        out: &mut Vec<Delivery>,
    ) -> Result<Option<Pos>, AllocError>
        requires own { IsPassOf self.now.hub.now.queue pass.old }
        requires shown { (view_of pass.old).walk.stage ≡ stages.Shown }
        requires from { (view_of pass.old).post.at ≤ at }
        requires before { at < length (shown_cells (view_of pass.old)) }
        requires low { length (shown_cells (view_of pass.old)) < 2 ^ 32 }
        requires fin { self.now.fin ≡ next_xid (known_of pass.old).seen }
        requires reach { length (known_of pass.old).seen
            ≤ notes_of_seats (hub_shape self.now.hub.now).seats }
        requires walks { IsWalking self.now.format (shown_cells (view_of pass.old)) self.now.fin
            (known_of pass.old).db self.now.set.now.channels (known_of pass.old).seen at
            out.old.items }
        ensures own { IsPassOf self.now.hub.now.queue pass.new }
        ensures view { view_of pass.new ≡ view_of pass.old }
        ensures turned { IfOk result (HasTurned self.now.format (shown_cells (view_of pass.old))
            self.now.fin (known_of pass.old).db self.now.set.now.channels
            (known_of pass.old).seen at out.old.items out.new.items) }
        ensures refused { OnErr result (out.new.items ≡ out.old.items) }
    {
        let head = self.hub.head_at(pass, at);
        let end = self.fin.get();
        if head.xid >= end {
            return Ok(None);
        }
        let own = pass.db().get();
        if head.db != own {
            return Ok(Some(advance(self.format, at, head.len)));
        }
        self.take(pass, at, &head, out)?;
        Ok(Some(advance(self.format, at, head.len)))
    }

    // Goes from a place on up to the first entry whose number is not below `fin`, or to the head, and puts what is due behind `out`.
    fn walk(
        &self,
        pass: &mut WordPass,
        from: Pos,
        head: Pos,
        out: &mut Vec<Delivery>,
    ) -> Result<Pos, AllocError>
        requires own { IsPassOf self.now.hub.now.queue pass.old }
        requires shown { (view_of pass.old).walk.stage ≡ stages.Shown }
        requires from { (view_of pass.old).post.at ≤ from }
        requires head { head ≡ length (shown_cells (view_of pass.old)) }
        requires low { head < 2 ^ 32 }
        requires fin { self.now.fin ≡ next_xid (known_of pass.old).seen }
        requires reach { length (known_of pass.old).seen
            ≤ notes_of_seats (hub_shape self.now.hub.now).seats }
        requires walks { IsWalking self.now.format (shown_cells (view_of pass.old)) self.now.fin
            (known_of pass.old).db self.now.set.now.channels (known_of pass.old).seen from
            out.old.items }
        ensures own { IsPassOf self.now.hub.now.queue pass.new }
        ensures view { view_of pass.new ≡ view_of pass.old }
        ensures walked { IfOk result (λ at. (end : ℕ) (owed : List Delivery)
            → Walks self.now.format (shown_cells (view_of pass.old)) self.now.fin
            (known_of pass.old).db self.now.set.now.channels (known_of pass.old).seen from end
            out.old.items owed
            → (at ≡ end) × (out.new.items ≡ owed)) }
        ensures front { take (vec_len out.old) out.new.items ≡ out.old.items }
    {
        let mut at = from;
        let last = head.get();
        while at.get() < last {
            match self.turn(pass, at, out)? {
                Some(next) => at = next,
                None => return Ok(at),
            }
        }
        Ok(at)
    }
}

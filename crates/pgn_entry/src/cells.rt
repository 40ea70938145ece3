ghost use Rattle.std.specs.Prelude.{◌≡◌, ℕ, ◌+◌, ◌*◌, ◌^◌, ◌<◌, ◌≤◌, [], ◌∷◌, ◌++◌, List, length, drop, get_or};
ghost use Rattle.std.specs.Int.{w32, from_le_bytes};
ghost use Rattle.pgn_base.specs.declared.note.Note.{Note};
ghost use Rattle.pgn_journal.specs.Bytes.{header_bytes, header, spelled, filler, IsEntryLength};
ghost use Rattle.pgn_base.specs.declared.limits.TheConstants.{CELL_BYTES};
ghost use Rattle.pgn_entry.specs.Cells.{AreCellsOf};

use crate::format::{header_len, pid_cell};
use crate::length::entry_len;
use byteorder::{ByteOrder, LittleEndian};
use pgn_base::{CELL_BYTES, DbOid, Format, Note, Xid};

// A byte of two texts that stand one after the other, with a zero byte between them. Past them it is zero.
fn text_byte(channel: &[u8], payload: &[u8], at: usize) -> u8
    ensures { result ≡ get_or ((channel.now ++ 0 ∷ []) ++ payload.now) at 0 }
{
    if at < channel.len() {
        return channel[at];
    }
    if at == channel.len() {
        return 0;
    }
    let past = at - channel.len() - 1;
    if past < payload.len() {
        payload[past]
    } else {
        0
    }
}

// The cell that holds four of these bytes.
fn text_cell(channel: &[u8], payload: &[u8], at: usize) -> u32
    requires { at < 2 ^ 32 }
    ensures { result ≡ from_le_bytes w32 (drop at ((channel.now ++ 0 ∷ []) ++ payload.now)) }
{
    u32::from_le_bytes([
        text_byte(channel, payload, at),
        text_byte(channel, payload, at + 1),
        text_byte(channel, payload, at + 2),
        text_byte(channel, payload, at + 3),
    ])
}

// The cell that holds four bytes of the payload, which are read together.
fn payload_cell(payload: &[u8], past: usize) -> u32
    requires { past + CELL_BYTES ≤ length payload.now }
    ensures { (channel : List ℕ)
        → result ≡ from_le_bytes w32 (drop (length channel + 1 + past)
        ((channel ++ 0 ∷ []) ++ payload.now)) }
{
    LittleEndian::read_u32(&payload[past..])
}

// The cell of this number of a head. In format Two cell 3 has the upper bytes of the transaction's number, and cell 5 ends the head.
fn head_cell(format: Format, len: u32, db: u32, xid: u32, pid: u32, number: usize) -> u32
    requires { 4 * number < header_bytes format }
    ensures { result ≡ from_le_bytes w32 (drop (4 * number) (header format len db xid pid)) }
{
    match number {
        0 => len,
        1 => db,
        2 => xid,
        _ if number == pid_cell(format) => pid,
        _ => 0,
    }
}

/// What the cells of an entry are made of: the numbers of its head, and its two texts. Who goes from cell to cell looks for them
/// once.
#[derive(Clone, Copy)]
pub struct EntryCells<'a> {
    /// How many bytes the entry has.
    pub len: u32,
    /// The sender's database.
    pub db: u32,
    /// The sender's transaction. In format Two the upper bytes of its number are zero.
    pub xid: u32,
    /// The sender's process number.
    pub pid: u32,
    pub channel: &'a [u8],
    pub payload: &'a [u8],
}

impl<'a> EntryCells<'a> {
    /// Those of a notification's entry in this format.
    pub fn of(format: Format, note: &'a Note, db: DbOid, xid: Xid, pid: u32) -> EntryCells<'a>
        ensures entry { AreCellsOf format note.now db xid pid result }
        ensures long { IsEntryLength format result.len }
    {
        EntryCells {
            len: entry_len(format, note),
            db: db.get(),
            xid: xid.get(),
            pid,
            channel: note.channel.as_bytes(),
            payload: note.payload.as_bytes(),
        }
    }

    /// The cell of this number: four of the entry's bytes, the lowest first. The format is the one that `of` was given.
    pub fn cell(&self, format: Format, number: usize) -> u32
        requires long { IsEntryLength format self.now.len }
        requires within { 4 * number < self.now.len }
        ensures { (note : Note) (db xid pid : ℕ) → AreCellsOf format note db xid pid self.now
            → result ≡ from_le_bytes w32 (drop (4 * number) (spelled format note db xid pid)) }
    {
        // Most cells lie in the payload of a long entry, so that these are told first.
        let at = CELL_BYTES * number;
        let header = header_len(format);
        let start = header + self.channel.len() + 1;
        if at >= start && at - start + CELL_BYTES <= self.payload.len() {
            return payload_cell(self.payload, at - start);
        }
        if at < header {
            return head_cell(format, self.len, self.db, self.xid, self.pid, number);
        }
        text_cell(self.channel, self.payload, at - header)
    }
}

/// The cell of this number of a filler of so many bytes. A filler says nothing, and stands where the next entry does not fit.
pub fn filler_cell(format: Format, len: u32, xid: Xid, pid: u32, number: usize) -> u32
    requires long { IsEntryLength format len }
    requires within { 4 * number < len }
    ensures { result ≡ from_le_bytes w32 (drop (4 * number) (filler format len xid pid)) }
{
    if CELL_BYTES * number >= header_len(format) {
        return 0;
    }
    head_cell(format, len, 0, xid.get(), pid, number)
}

//! The queue's entries and fillers as bytes.
//!
//! Everything that a listener receives has been these bytes on a page. `EntryCells` and `filler_cell` give the one spelling of an
//! entry and of a filler, four bytes at a time as the queue's cells hold them, the lowest first. `read_entry` accepts these
//! spellings and nothing else: it gives the fields back where the bytes begin with a spelling, and else the first fault that they
//! have. `read_piece` reads bytes of which the caller knows that they are an entry or a filler, and answers with its fields.
//!
//! An entry is its length, its database, its transaction and the process number of its sender, four bytes each with the lowest
//! first, then the channel and the payload, each with a zero byte after it, and zero bytes up to its length. A filler is such a
//! head with database 0, and zero bytes. That is format One. In format Two the transaction has eight bytes, and four zero bytes
//! end the head. Both definitions are `spelled` and `filler` of `pgn_journal`. Each call is told the format.
//!
//! None of these calls takes memory. What is read is shown as parts of the bytes that were given.
//!
//! A caller, in a test:
//!
//! ```
//! let alloc = rt.alloc();
//! let note = Note {
//!     channel: Name::new(alloc, "c")?,
//!     payload: Payload::new(alloc, "")?,
//! };
//! let cells = EntryCells::of(Format::One, &note, DbOid::new(7), Xid::new(4), 1003);
//! let mut bytes = Vec::new(alloc);
//! for number in 0..cells.len as usize / CELL_BYTES {
//!     bytes.extend_from_slice(&cells.cell(Format::One, number).to_le_bytes())?;
//! }
//! let entry = EntryView::Entry {
//!     len: 20,
//!     db: 7,
//!     xid: 4,
//!     pid: 1003,
//!     channel: b"c",
//!     payload: b"",
//! };
//! assert_eq!(rt; read_entry(Format::One, &bytes), Ok(entry));
//! ```
#![tactic(auto)]

mod any_bytes;
mod cells;
mod entry_fault;
mod entry_view;
mod format;
mod head;
mod length;
mod piece;
mod texts;

pub use any_bytes::read_entry;
pub use cells::{EntryCells, filler_cell};
pub use entry_fault::EntryFault;
pub use entry_view::EntryView;
pub use length::entry_len;
pub use piece::read_piece;

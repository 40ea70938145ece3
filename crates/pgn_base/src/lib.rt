//! What the other crates speak of: names and payloads, sessions, databases and transaction numbers, the lists made
//! of them, the commands, the enums of answers, and the outside as two traits.
//!
//! A value is valid by its type: a `Name` has 1 to 63 bytes and an `Xid` is at least 3, and a layer above need not test it
//! again. Contracts see a name or a payload as its bytes, a number type as its number, and a list as a list.
//!
//! `Source` and `Sink` are where bytes come from and go to. Each tells its bytes where it can, and counts its faults, so that
//! an answer "read failed" or "write failed" has a cause that a contract can name.
//!
//! A caller, in a test:
//!
//! ```
//! let alloc = rt.alloc();
//! let mut names = Names::new(alloc);
//! names.push(Name::new(alloc, "c")?)?;
//! assert!(rt; names.as_slice()[0].as_bytes() == b"c");
//! ```
#![tactic(auto)]

mod action;
mod answers;
mod channels;
mod command;
mod copied;
mod format;
mod in_place;
mod limits;
mod name;
mod note;
mod numbers;
mod payload;
mod queue_answers;
mod seed;
mod seq;
mod sink;
mod source;
mod text;

pub use action::{Action, Actions};
pub use answers::{Needs, Refusal, Tag, Warning, Which};
pub use channels::{CHANNEL_BITS, channel_bit};
pub use command::Command;
pub use copied::Copied;
pub use format::Format;
pub use in_place::InPlace;
pub use limits::{
    CELL_BYTES, CLEANUP_DELAY_PAGES, FIRST_XID, FLAGS_MAX, HUB_FLAGS_MAX, HUB_NOTES_MAX,
    INPUT_BYTES_MAX, LINE_BYTES_MAX, NAME_BYTES_MAX, NOTE_LINES_MAX, PAGE_BYTES, PAGES_DEFAULT,
    PAGES_MAX, PAGES_MIN, PATIENCE_DEFAULT, PAYLOAD_BYTES_MAX, PID_BASE, REPEATS_MAX, SECTIONS_MAX,
};
pub use name::{Name, NameFault, Names};
pub use note::{Deliveries, Delivery, Note, Notes, are_notes};
pub use numbers::{DbOid, SessionNo, Xid};
pub use payload::{Payload, PayloadFault};
pub use queue_answers::{Enlisted, Full, Usage};
pub use seed::{Seed, SeededHasher};
pub use seq::Seq;
pub use sink::{Sink, write_all};
pub use source::{Failed, Source};
pub use text::{TEXT_BYTES_IN_PLACE, Text};

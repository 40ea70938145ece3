//! Where entries and fillers lie in the queue, and where the status of a transaction stands in its word.
//!
//! `Packing` of `pgn_journal` places the notifications of a whole journal one after another. A writer knows the head alone, and writes
//! in batches: the entries that fit on the head's page, and a filler where the next one does not fit. `plan_batch` gives the next
//! batch, and `layout::placing` of `pgn_laws` says that batch after batch comes to the cells, the fillers and the end of the definitions. A writer:
//!
//!     let batch = plan_batch(head, &notes[placed..]);
//!     // here the entries of the next `batch.fits` notifications are written, and a filler if `batch.filler` is not 0
//!     placed += batch.fits;
//!     head = batch.next;
//!
//! A reader steps over an entry or a filler by `advance`. `status_bits` and `status_of` set and read a status, as `layout::statuses` there
//! says. None of these calls takes memory.
#![tactic(auto)]

mod batch;
mod packing;
mod pos;
mod status;

pub use batch::Batch;
pub use packing::{advance, plan_batch};
pub use pos::Pos;
pub use status::{status_bits, status_of};

//! The journal and the queue, in `specs/`: finished transactions, what is due from them to a reader, the bytes of entries, where
//! they lie on pages, and when the queue is full.
//!
//! The journal is the list of finished transactions, and grows at its end; the transaction numbered x stands at x - 3.
//!
//! Laws over these definitions stand in `pgn_laws`, in `journal`.
//!
//! A caller makes a transaction, and says by a definition what it made:
//!
//! ```
//! ghost use Rattle.std.specs.Prelude.{◌≡◌, true, IfOk};
//! ghost use Rattle.pgn_journal.specs.Journal.{is_committed_in};
//!
//! fn committed(alloc: Global, session: SessionNo, db: DbOid, note: &Note) -> Result<Tx, AllocError>
//!     ensures { IfOk result (λ tx. is_committed_in db tx ≡ true) }
//! {
//!     let mut notes = Notes::new(alloc);
//!     notes.push(note.copy(alloc)?)?;
//!     Ok(Tx {
//!         session,
//!         db,
//!         notes,
//!         queued: 1,
//!         fate: Fate::Committed,
//!     })
//! }
//! ```
#![tactic(auto)]

mod channel_bits;
mod tx;

pub use channel_bits::interest_of_notes;
pub use tx::{Fate, Tx};

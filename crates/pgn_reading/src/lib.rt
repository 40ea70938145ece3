//! What traces and output texts say: the journal, given back from the traces of all sessions; how an output text is read, and which of
//! its lines are to blame where it is that of no legal run.
//!
//! Each trace shows its session's finished transactions with their numbers. `merge` puts each into its place by its number, and
//! so gives back the journal that the traces show. Its notifications are not copied: they move there, and leave the traces bare.
//! How outputs are read are definitions. Laws of both stand in `pgn_laws`, in `merge` and `reading`; their proofs stand here, since
//! whoever judges an output needs them.
//!
//! A caller that has the traces of a legal run gets its journal:
//!
//! ```
//! ghost use Rattle.std.specs.Prelude.{◌≡◌, IfOk};
//! ghost use Rattle.pgn_reading.specs.Merged.{ShowsJournal};
//!
//! fn journal_of(alloc: Global, traces: &mut [Trace]) -> Result<Vec<Tx>, AllocError>
//!     ensures { (journal : List Tx) → ShowsJournal journal traces.old → IfOk result (λ got. got.items ≡ journal) }
//! {
//!     merge(alloc, traces)
//! }
//! ```
#![tactic(auto)]

mod merging;

pub use merging::merge;

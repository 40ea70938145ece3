//! What a whole run is, in `specs/`, and the types that this speaks of: the items of a session's trace, and a trace.
//!
//! A trace is lawful where a walk over its items, which carries all that the session knows, allows each item in the state before
//! it. `Legal` says of a journal and all traces together that they are a run of a scenario, and `text` is the output that shows
//! them. What a line reads as, what a command is answered, and the journal have crates of their own below.
//!
//! Laws over these definitions stand in `pgn_laws`, in `model`.
#![tactic(auto)]

mod item;
mod trace;

pub use item::{Item, Items};
pub use trace::Trace;

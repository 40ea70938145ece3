//! Any reader as a source and any writer as a sink, each with its count of faults, and the seed of a run's hashes: what the program makes of
//! the machine's standard streams and random bytes.
//!
//! A caller:
//!
//! ```
//! let mut source = Input::new(rt.stdin());
//! let mut sink = Output::new(rt.stdout());
//! let hashes = drawn(&rt);
//! ```
#![tactic(auto)]

mod adapters;
mod drawing;

pub use adapters::{Input, Output};
pub use drawing::drawn;

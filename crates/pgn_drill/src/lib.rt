//! The drill: a scenario that is made from a seed, and the five lines that tell what came of its run.
//!
//! `drill_text` writes the scenario as `drill` in `specs/Drill.antt` says. `summary` writes `brief` of a run, the definition of which
//! stands beside the whole output's. `received` counts what all sessions received, for who has to know that it is no more than
//! 2^64 - 1.
//!
//! A caller, in a test:
//!
//! ```
//! let text = drill_text(alloc, 0, 1, 1)?;
//! assert!(rt; text.starts_with(b"\\session d1 1\nLISTEN c1\nBEGIN\n"));
//! ```
#![tactic(auto)]

mod counts;
mod five_lines;
mod scenario;

pub use counts::received;
pub use five_lines::summary;
pub use scenario::drill_text;

//! Laws of a live output: sorted by session, its lines are the text of the run, so that it comes from one run.
//!
//! All stand on public functions with an empty body, in `laws`. The program calls none of them: what `run --live` writes is the live
//! output of a legal run, and these say what whoever reads it may conclude. `examples` has live outputs of one run in two orders, and
//! outputs that are another text once they are sorted.
#![tactic(auto)]

pub mod examples;
pub mod laws;

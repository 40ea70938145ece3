//! Laws of the output: the text of a legal run gives back its journal and its traces, so that one text comes from one run.
//!
//! All stand on public functions with an empty body, in `laws`. The program calls none of them: what it writes is the text of a
//! legal run, and these say what whoever reads the text may conclude. `examples` has two runs that differ in what one session
//! receives, and texts that are those of no run.
#![tactic(auto)]

pub mod examples;
pub mod laws;

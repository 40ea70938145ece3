//! Whether a text is the output of a legal run of a scenario.
//!
//! `check_output` answers it. It reads the text by `pgn_form`, asks each transaction of its journal (`read_journal`: finished, with
//! notifications that are all different, and some section's), and walks along each section: `pgn_walk` judges an item by what its
//! session has done so far, and by what the journal and the other sections say. Where the text is not that of a legal run it gives
//! the number of the first line that is to blame. `laws` has that of a legal run's output no line is.
#![tactic(auto)]

mod check;
mod entries;
mod fresh;
mod held;
mod journal;
mod judge;
mod last;
pub mod laws;
mod sections;
mod walker;

pub use check::{Verdict, check_output};
pub use journal::read_journal;

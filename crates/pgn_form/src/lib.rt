//! The form of an output: what a text shows as an output of a scenario, or the first line that breaks its form.
//!
//! A reader goes from place to place (`Place`): before the head of the journal, among its entries and their notifications, before
//! the head of a section, inside one. From each place a line leads on (`step`), if it may stand there: by what it shows, or since
//! it is the head of the next section or the next line of its script. What it shows is added to what has been read (`Draft`).
//! `read_output` gives the journal and the traces of which the text is the output's, or the number of the first line with which no
//! output goes on.
#![tactic(auto)]

mod added;
mod draft;
mod moved;
mod place;
mod reader;
mod steps;
mod told;

use place::{Place, Within};
pub use reader::{Reading, read_output};

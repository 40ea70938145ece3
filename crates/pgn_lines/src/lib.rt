//! What a line of an output shows, exact in both directions.
//!
//! `read_line` takes a line without its LF. It gives what the line shows (`Shown`), such that the text of this is the line and its
//! numbers, names and notifications are such as their types hold; and nothing exactly where the line shows nothing. A line shows
//! one thing at most. The lines that are known beforehand, a section's head and the lines of its script, are compared and not
//! read.
//!
//! `read_line(alloc, "+publish 3")` gives `Shown::Publish` with the transaction number 3, and `read_line(alloc, "+publish 03")`
//! nothing. There is a function for each family of lines, and one for each kind that has more than a number.
#![tactic(auto)]

mod answers;
mod entries;
mod events;
mod fields;
mod line;
mod numbers;
mod quoted;
mod rows;
mod shown;

pub use line::read_line;
pub use shown::Shown;

//! What an input reads as: a scenario, or its one fault.
//!
//! `read_scenario` gives exactly the reading that `pgn_language` defines (`ReadsAsScenario`), which is always there and only one. The
//! layer above may rely on it both ways: a scenario or a fault is given exactly where the input reads so, and every scenario is
//! sound (`IsSound`). Only want of memory is refused, and it may come at any point.
//!
//! The bytes are taken a line at a time: `first_line` finds the line's end, `said_of` tells what the line says, and
//! `SoFar` has what the lines so far make, to which each line adds or in which it is at fault. Names of sections and of flags are
//! found by their hash. A line's text is copied once.
//!
//! A caller asks `read_scenario(alloc, seed, b"\\session a 1\nLISTEN c\n")` for one section `a` in database 1, with the one line
//! `LISTEN c`, whose number is 2. `read_input` takes an input's bytes from a source.
#![tactic(auto)]

mod bytes;
mod flags;
mod input;
mod labels;
mod lines;
mod meta;
mod parts;
mod said;
mod scenario_reading;
mod so_far;
mod texts;

pub use input::{Unread, read_input};
pub use scenario_reading::read_scenario;

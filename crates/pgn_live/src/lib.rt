//! All sessions of a scenario over one hub, while the lines of what they record are written as they come.
//!
//! `run_live` runs sessions until all are over, as a run does: halves of them on threads, down to one session a thread, and in turns where
//! no thread can be had. Behind each turn a session tells what it has recorded, by a pass of an `Outlet` of `pgn_outlet`; a writer beside
//! the sessions, whose bell is rung, takes it and writes its lines, each behind the session's number. Where it finds nothing it sends what it has kept back, so
//! that at rest a line is out at once, and under load many go in one write.
//!
//! What is written is, of each session, its trace, in order, each item once, and the lines of different sessions are mixed as they came. A
//! refused push is tried again with the next one, and is an error only where something is missing at the end. After a failed write the
//! sessions run on to their end. After an error each session is over or has raised its end flag, and its trace so far is lawful over
//! some journal.
#![tactic(auto)]

mod live_sessions;
mod lives;
mod relay;
mod telling;
mod writing;

pub use lives::{LiveFault, run_live};
pub use writing::write_items;

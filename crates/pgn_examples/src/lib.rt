//! Worked examples of the definitions of inputs, runs, texts and messages: what each meets and what it refuses, computed.
//!
//! Each example is a clause of a public function with an empty body, in the module of its topic, with data in `specs/`. No crate of
//! the program stands on this one, so that is built without it.
#![tactic(auto)]

pub mod answers;
pub mod blocks;
pub mod command_lines;
pub mod due;
pub mod flags;
pub mod frames;
pub mod full_queue;
pub mod grammar;
pub mod inputs;
pub mod lines;
pub mod merge;
pub mod messages;
pub mod packing;
pub mod pieces;
pub mod queries;
pub mod reading;
pub mod refused_runs;
pub mod requests;
pub mod runs;
pub mod savepoints;
pub mod taking_memory;
pub mod texts;
pub mod turns;
pub mod walks;
pub mod whole_runs;

//! Laws of the definitions: what follows from them.
//!
//! Each law is a clause of a public function with an empty body, in the module of the crate that it speaks of. Its statement and its
//! proof stand where proofs of the program need them, and else here. No crate of the program stands on this one, so that is built without
//! it.
#![tactic(auto)]

pub mod answers;
pub mod block;
pub mod drill;
pub mod entry;
pub mod frames;
pub mod hub;
pub mod journal;
pub mod lanes;
pub mod language;
pub mod layout;
pub mod lines;
pub mod merge;
pub mod messages;
pub mod model;
pub mod queries;
pub mod reading;
pub mod requests;
pub mod turns;
pub mod words;

//! Worked examples of the definitions of the queue, of sessions and of whole calls: what each meets and what it refuses, computed.
//!
//! Each example is a clause of a function with an empty body, in the module of its topic, with data in `specs/`. No crate stands on
//! this one, so the program is built without it.
#![tactic(auto)]

pub mod hub;
pub mod lanes;
pub mod layout;
pub mod live;
pub mod outlet;
pub mod run;
pub mod seats;
pub mod service;
pub mod session;
pub mod threads;
pub mod wire;
pub mod wordhub;
pub mod words;

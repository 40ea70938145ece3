//! Clients of PostgreSQL's protocol, served over a hub of a type that the caller names: one client of the wire, or those of many
//! seats on one queue.
//!
//! `converse` serves one client to its end: what stands written are the messages of a legal run of what it asked. `run_service` opens
//! a session for each seat, and lets three arms run side by side: one reads frames of what the seats' clients ask, the desks do it and
//! tell what comes of it, and one writes that as it comes. Where threads cannot be had, nothing is read.
//!
//! Both say by how they end what was read and what stands written. They may wait for a long time, so that no contract promises that they
//! return.
#![tactic(auto)]

mod arms;
mod client;
mod closing;
mod conversing;
mod means;
mod seating;
mod service;

pub use conversing::converse;
pub use means::Means;
pub use service::{ServiceEnd, run_service};

//! The clients of seats, one after another, each seat served by one session.
//!
//! A desk is a seat's session, with the settings of the client that is there and a pass by which it takes what the seat's clients ask,
//! from the seat's inbox. By another pass, which the desks of a thread share, they are told, through the outbox of all seats. A turn of a
//! desk takes what is next in its inbox, lets the session do it, where it is not settled without one, and tells it in one piece; where
//! nothing is there, it tells what the session hears.
//!
//! `serve_seats` has all desks of a `Service` take turns, each on a thread of its own while threads can be had. A desk for which there is nothing to do
//! dozes until its bell rings: who puts into its inbox rings it, and so does the hub where a wake is set.
//!
//! What a desk has come to stands in `specs/Serving`: its session's script and trace are those of turns, what was taken is what they were
//! asked for, and what was told is what they say. `Serves` holds between turns, `HasServed` once nothing more is asked and the session
//! has quit, and `HasToldFirst` always, also where memory did not suffice.
#![tactic(auto)]

mod answering;
mod desk;
mod desks;
mod discarding;
mod hearing;
mod lines;
mod resetting;
mod service;
mod serving;
mod settling;
mod telling;
mod tells;
mod turn;

pub use desk::{Desk, Inbox};
pub use service::Service;
pub use serving::serve_seats;
pub use tells::Tells;

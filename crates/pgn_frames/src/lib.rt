//! What comes in frames from the clients of all seats, and what each seat is asked.
//!
//! `FramesAre` in `specs/Frames` takes an input apart into frames, and `signs_of` gives what of them is a seat's, sign by sign: the bytes of
//! its clients, and their ends. `SeatAsks` in `specs/Clients` says what a seat is asked by its signs. `pgn_laws` has that each input is taken
//! apart in one way. `next_frame` reads one frame after another from any source.
#![tactic(auto)]

mod caller;
mod counts;
mod frame_fault;
mod framing;
mod message;
mod reading;
mod taking;
mod writing;

pub use caller::Caller;
pub use frame_fault::FrameFault;
pub use framing::{Arrival, NoFrame, next_frame};
pub use reading::read_frames;
pub use writing::{write_over, write_rest, write_until};

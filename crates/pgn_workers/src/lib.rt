//! Many workers, each with a turn again and again until it is over: on threads of their own, or in turns where threads are few.
//!
//! What workers are and what they come to, what a turn does, how workers wait that had nothing to do, and how they end, a crate above says by
//! the trait `Work`. `run` takes halves of the workers to threads, down to one worker a thread, while threads can be had; `run_in_turns` has them
//! take rounds of turns on the caller's thread. Workers on one thread share a hand, as a pass by which each of them tells. Where workers
//! are cut in two, so is their hand, and the two are made one again behind it.
//!
//! That halves run side by side is not said by a contract: a body that has all take turns on one thread meets it too.
#![tactic(auto)]

mod halves;
mod meeting;
mod rounds;
mod start;
mod turn;
mod work;

pub use halves::run;
pub use meeting::Meeting;
pub use rounds::run_in_turns;
pub use start::Start;
pub use turn::{Pause, Turn};
pub use work::Work;

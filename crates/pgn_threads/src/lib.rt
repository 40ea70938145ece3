//! All sessions of a scenario over one hub, each on a thread of its own, or in turns where threads are few.
//!
//! `run_sessions` runs sessions until all are over. `drain` then lets them hear from each other what each knows of wakes, and lets each
//! that still listens read once more. `open_on_hub` opens a hub for a scenario and makes a
//! session for each section, and `finish_run` drains sessions that are over, gathers their passes and merges their traces. `run_on_hub`
//! does all that a scenario takes. What it answers is a legal run of the scenario.
//!
//! That the sessions run side by side is not said by a contract: a body that runs one after another on one thread meets it too,
//! where no session awaits another. The law in `laws` leads from sessions that are over and gathered passes to a legal run.
//!
//! A caller: the sessions of two sections run and are drained.
//!
//! ```
//! fn run_and_drain<P: PassView + Send + Drop, H: Hub<Pass = P> + Sync, R: Threads + Wait + Sync>(
//!     rt: &R,
//!     alloc: Global,
//!     hub: &H,
//!     sessions: &mut [Session<P>],
//! ) -> Result<(), AllocError>
//!     requires { All (IsReady (H.is_pass hub.now) (H.shape hub.now) P.known) sessions.old }
//! {
//!     run_sessions(rt, alloc, hub, sessions)?;
//!     drain(alloc, hub, sessions)?;
//!     Ok(())
//! }
//! ```
#![tactic(auto)]

mod draining;
mod hub_sessions;
pub mod laws;
mod opening;
mod running;
mod whole_run;

pub use draining::drain;
pub use running::run_sessions;
pub use whole_run::{Run, finish_run, open_on_hub, run_on_hub};

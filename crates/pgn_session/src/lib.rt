//! One session, over any hub: what PostgreSQL calls a backend. It takes the lines of its script, keeps its transaction block and
//! its listening set, reads when it was woken, and records what happened as the items of a trace.
//!
//! What holds of a session is a plain predicate over its section, what is known of its pass, its items, its set and its block:
//! `HasAnswer`, each line so far has its whole answer, and it may have to read; and `HasRest`, no read was left out. Both say that
//! the trace so far is lawful over what the pass has seen, and shows what the pass knows. `idle` leads from the one to the other.
//!
//! `new` makes a session that has rested. `step` takes it from `HasRest` to `HasAnswer`, and only where it is over or the step was
//! refused has it rested still; `idle` leads from `HasAnswer` to `HasRest`, so that a session that waits reads between its looks.
//! Before a `step`, `read_before_line` reads with the set as it is, where the next line may add a channel.
//! Between `step` and `idle`, or behind `idle`, a session that waits may `sleep` on its flag, and `sleep_over` counts that as looks. `turn` is
//! a step with both reads, and `wait_together` a wait that becomes longer, of all sessions that share a thread.
//! After a step that ended, `finish_read` reads once more and `into_log` gives the trace. A refused `step` may be made again, or the
//! session calls `give_up`. `meet` lets another session hear what this one knows.
//!
//! A caller: a session that is over reads once more and hands out its trace.
//!
//! ```
//! fn last_trace<P: PassView + Drop, H: Hub<Pass = P>>(
//!     alloc: Global,
//!     hub: &H,
//!     mut session: Session<P>,
//! ) -> Result<Trace, AllocError>
//!     requires own { H.is_pass hub.now session.pass }
//!     requires over { session.doing ≡ Doing.Over }
//!     requires rested { HasRest (H.shape hub.now) P.known session }
//! {
//!     session.finish_read(alloc, hub)?;
//!     let (_pass, trace) = session.into_log();
//!     Ok(trace)
//! }
//! ```
#![tactic(auto)]

mod command;
mod commit;
mod doing;
mod feeding;
mod first_read;
mod line;
mod reading;
mod session;
mod sleep;
mod step;
mod together;
mod turn;
mod waiting;

pub use doing::{Doing, FlagPlan, IdleDone, Step};
pub use session::Session;
pub use together::{give_up_all, wait_together};
pub use turn::LONGEST_SLEEP;
pub use waiting::waits_behind;

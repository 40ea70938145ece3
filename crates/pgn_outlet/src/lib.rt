//! One queue of many sessions, in which nothing that is pushed is lost, put twice or put in another's name.
//!
//! A session's worker pushes, and one other takes. Each holds a pass, which knows what was pushed or taken by it. The rule says, of each
//! session, that what was pushed for it, taken or not, is what its one pass has pushed, in that order, each once. So whoever pushes the
//! parts of something in order has them in the queue so, and who takes until nothing is left has got them so.
//!
//! `open` gives a pass that may push for every session, and one that takes. `cut` splits a pass by the numbers of its sessions, before
//! it has pushed, and `whole` makes two neighbours one again. `push` and `take` are the two steps. Once the sessions are done `close` gives
//! the taker's part to the pass of all sessions: what it takes from then on, until nothing is left, is known to be all.
//!
//! A caller: two sessions push, and what was taken is what they pushed.
//!
//! ```
//! fn push_and_take<T: Drop, R: Wait>(
//!     rt: &R,
//!     outlet: &Outlet<T>,
//!     pass: &mut OutletPass<T>,
//!     came: Came<T>,
//! ) -> Result<Option<Came<T>>, AllocError>
//!     requires own { IsPassOf outlet.now pass.old }
//!     requires may { MayPush (knows pass.old) came.session }
//!     requires takes { (knows pass.old).takes ≡ true }
//!     ensures own { IsPassOf outlet.now pass.new }
//! {
//!     outlet.push(rt, pass, came)?;
//!     Ok(outlet.take(rt, pass))
//! }
//! ```
#![tactic(auto)]

mod bell;
mod came;
mod hand;
mod outlet;
mod plays;

pub use bell::Bell;
pub use came::Came;
pub use hand::Hand;
pub use outlet::{Outlet, OutletPass};

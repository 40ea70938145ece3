//! What a session asks of the notification service: to publish, to listen, to read, to be woken, to raise and find flags.
//!
//! `Hub` is the one interface between sessions above and the queue below. A session has a pass, and each call says what it does
//! to what is known of that pass, as an equation over `Known`: what the equation doesn't name stays as it was. So a session can be
//! proved over any hub, and a hub by its calls alone.
//!
//! `publish` and `usage` may wait for the lock, and `rest` sleeps until a flag is raised or the time is over. The others wait for
//! nobody. Only `open` and `scan` take memory.
//!
//! Laws of what the calls say stand in `pgn_laws`, in `hub`.
//!
//! A caller: a session that is no listener becomes one, and reads.
//!
//! ```
//! ghost use Rattle.std.specs.Prelude.{◌≡◌, None, Some, IfOk};
//!
//! fn listen_and_read<H: Hub>(
//!     hub: &H,
//!     alloc: Global,
//!     pass: &mut H::Pass,
//!     set: &ListenSet,
//!     out: &mut Vec<Delivery>,
//! ) -> Result<Xid, AllocError>
//!     requires own { H.is_pass hub.now pass.old }
//!     requires out { (H.Pass.known pass.old).mark ≡ None }
//!     ensures own { H.is_pass hub.now pass.new }
//!     ensures mark { IfOk result (λ to. (H.Pass.known pass.new).mark ≡ Some to) }
//! {
//!     let _enlisted = hub.enlist(pass);
//!     hub.scan(alloc, pass, set, out)
//! }
//! ```
#![tactic(auto)]

mod hub;
mod known;
mod pass_view;
mod roll;
mod setup;

pub use hub::Hub;
pub use known::{Advance, Known};
pub use pass_view::PassView;
pub use roll::Roll;
pub use setup::{SeatSetup, Seats, Setup};

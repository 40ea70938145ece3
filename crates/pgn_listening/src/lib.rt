//! The channels that a session listens to, in order of listening, and the bits of them.
//!
//! A caller, in a test:
//!
//! ```
//! let alloc = rt.alloc();
//! let mut actions = Actions::new(alloc);
//! actions.push(Action::Listen(Name::new(alloc, "c")?))?;
//! let mut set = ListenSet::new(alloc, Seed::fixed());
//! set.reserve(1)?;
//! set.apply(actions);
//! assert!(rt; set.contains(b"c"));
//! ```
#![tactic(auto)]

mod channel_bits;
mod listen_set;

pub use listen_set::ListenSet;

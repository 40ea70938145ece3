//! Questions to a journal that was read, and what a line of a script still has to show.
#![tactic(auto)]

mod all;
mod ledger;
mod packing;
mod places;
mod queue_use;
mod to_show;
mod turns;

pub use all::are_all;
pub use ledger::Ledger;
pub use queue_use::is_floor_for;
pub use to_show::{Ending, ToShow};

//! Where a session stands in the walk over its trace, and each step of it.
//!
//! A `Standing` is taken along a trace, item by item: each method judges one kind of item, and where it is allowed the session stands
//! behind it. `Evidence` has what all traces show, and `Basis` what a trace is judged by: `is_borne_out` and `is_next_own` ask them
//! about an item; `lines_of` and `finished_in` count what it has.
#![tactic(auto)]

mod basis;
mod borne;
mod commit;
mod evidence;
mod items;
mod line;
mod pairs;
mod same;
mod span;
mod standing;

pub use basis::Basis;
pub use borne::{finished_in, is_borne_out, is_next_own, lines_of};
pub use evidence::{Evidence, begins_line};
pub use span::Span;
pub use standing::Standing;

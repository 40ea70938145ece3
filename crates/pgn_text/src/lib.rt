//! The output text, written to a sink. It stands apart from the run, so that all that shows a trace writes it by the same calls.
//!
//! `render` writes the whole text of a run. `Out` is the buffer that all of it goes through, with a method for each kind of line. It
//! keeps some kilobytes back, so that the sink is called seldom, and `send` gives them out. It never fails in the middle: a failed write
//! stays in `so_far`, and from then on nothing more is given out. So most contracts say one thing, `Puts`: whatever was given out before,
//! this text is given out after it, and a failure has its cause.
//!
//! The lines are those of `item_lines`, `trace_lines` and `journal_lines` of `pgn_model`. Nothing here takes memory.
#![tactic(auto)]

mod buffer;
mod digits;
mod item;
mod journal;
mod line;
mod line_cursor;
mod note;
mod out;
mod pieces;
mod queue_line;
mod refusal;
mod section;
mod section_lines;
mod span;
mod text;

pub use line_cursor::LineCursor;
pub use out::Out;
pub use section_lines::lines_of;
pub use text::render;

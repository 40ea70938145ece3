//! What a server of PostgreSQL's protocol 3.0 sends after start-up: a session's trace as messages.
//!
//! `messages` in `specs/Messages` gives the messages of a section's trace, by its items: for each line that has a command the answer to
//! its query, which ends by ReadyForQuery. `answer_query` gives the bytes of one such answer, by the command, the items of its line and the
//! block's state after them, in memory that it takes; whoever writes them sends a whole answer or, where there is no memory for it,
//! nothing of it.
//!
//! A service puts messages of its own besides: columns with their types, settings, errors with a text of their own, and how much of the
//! queue is in use as a fraction (`service`).
//!
//! A seat of `pgnotify serve` is served by one session, whose script grows by what its clients ask: a line for each query, two for
//! `DISCARD ALL`, and two for each end of a client, which set the seat back. What is settled without the session has none. `specs/Turns`
//! cuts the session's trace into turns: a query is answered, reads are heard between two lines, something is settled, all is discarded, a
//! client leaves. `said` gives, sign by sign, what the clients are told of them. ReadyForQuery stands behind all items of a query's line;
//! where reads stand is all that the cut leaves open. `tell_answer`, `tell_settled`, `tell_discard`, `tell_reads` and `tell_parting` give
//! the bytes of one turn.
//!
//! Laws over the definitions stand in `pgn_laws`. In `messages`: messages grow by an answer a line, and a line
//! that is put in behind those that have begun changes none. In `turns`: whoever adds turn after turn walks over the trace, and
//! knows where a teller stands: the state of the block and the client's settings.
#![tactic(auto)]

mod answer;
mod answering;
mod asked;
mod bytes;
mod cutting;
mod digits;
mod lines;
mod saying;
mod served;
mod server;
mod service;
mod settling;
mod statuses;
mod telling;
mod texts;
mod wordings;

pub use answer::answer_query;
pub use asked::{Ask, Asked, Parting};
pub use bytes::Bytes;
pub use lines::{discard_at, quit_at_end, rollback_at, unlisten_at};
pub use saying::Saying;
pub use served::{tell_answer, tell_discard, tell_settled};
pub use telling::{tell_parting, tell_reads};

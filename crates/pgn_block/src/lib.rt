//! A session's transaction block: what each command is answered in each state, and what each commit hands out.
//!
//! The layer above tells a `Block` each command, in order, and does what the `Effect` says: it writes the tag, the warning or the
//! refusal, commits the actions and notifications that are handed out, or answers a query about the session or the queue. BEGIN
//! opens a block, COMMIT and ROLLBACK end it, and an error in it fails it: from then on every command is refused but those that
//! end the block, and ROLLBACK TO a savepoint from before the error, which leads back into it. Outside a block, LISTEN, UNLISTEN
//! and NOTIFY are transactions of their own, and commit at once.
//!
//! What an open transaction has sent and done so far stands in a `Pending`, with its savepoints: ROLLBACK TO drops what came after
//! the savepoint and keeps the savepoint, RELEASE drops the savepoint and later ones and keeps what came after, and of equal
//! names the newest is meant. At its end it gives the surviving actions in order, and the surviving notifications, each repeat
//! once, in the place of its first occurrence. The room for these is made as they come, so that to roll back, to release and to
//! finish cannot be refused for want of memory.
//!
//! The contract of `step` is the table of answers, `answer` in `pgn_answers`: for every history of the open transaction, the effect,
//! the next state and the history after it are those of the table's cell. Contracts see a `Block` as `BlockView`, its state and
//! what is kept of its transaction.
#![tactic(auto)]

mod block;
mod effect;
mod pending;
mod savepoint;
mod savepoints;
mod stage;

pub use block::{Block, each_has_a_history};
pub use effect::{Effect, Kind};

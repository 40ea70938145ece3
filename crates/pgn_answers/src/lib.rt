//! What commands are answered, in `specs/`: a transaction's list with its savepoints, the table of answers with a row for each
//! command and a column for each state of the block, and the texts of tags, warnings and refusals.
//!
//! Laws over these definitions stand in `pgn_laws`, in `answers`.
#![tactic(auto)]

mod block_state;

pub use block_state::BlockState;

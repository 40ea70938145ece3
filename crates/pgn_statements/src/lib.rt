//! What a Query's body asks for: a line of the session's script, or something that is settled without the session.
//!
//! `read_request` gives exactly the request that `pgn_requests` defines for a body (`RequestIs`), which is always there and only one. Only
//! want of memory is refused.
//!
//! A body is read in three steps: `body_of` finds its text, `bare` takes comments, line feeds and the end off it, and the grammar of
//! `pgn_command` reads what is left. What the grammar refuses is read once more by its tokens (`asking`): the settings and the other words that
//! drivers send.
#![tactic(auto)]

mod accepting;
mod asking;
mod assigning;
mod bare;
mod body;
mod byte_modes;
mod calls;
mod choices;
mod complaining;
mod encodings;
mod lexemes;
mod lines;
mod settings_named;
mod single_line;
mod statement_reading;
mod transaction_modes;
mod values;
mod words;

pub use statement_reading::read_request;

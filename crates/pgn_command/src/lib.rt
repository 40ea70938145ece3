//! What a line of SQL reads as: the lexer and the grammar of the commands.
//!
//! `parse_line` gives exactly the reading of a line that `pgn_language` defines (`ReadsAs`), which is always there and only one. The
//! layer above may rely on it both ways: a command is what the table of commands makes of the line's tokens, `Bad` tells the
//! first byte at which no form of the table goes on, and `Invalid` the first limit that a notification goes past. Only want of
//! memory is refused.
//!
//! A line is read by three layers: `Lexer` gives tokens as parts of the line, `Parser` has the next of them ahead and reads a
//! `Statement`, whose names and texts are still parts of the line, and `command_of` builds these. A text
//! between quotes and a text that is repeated are measured before they are built.
//!
//! Of `it''s' ..`, which follows an opening quote, `inside` gives `it''s` as a part of what was read (`Enclosed`), exactly where
//! `closed` of `pgn_language` finds a closing quote; `unquoted` makes `it's` of this.
//!
//! A session asks `parse_line(alloc, "NOTIFY c, 'it''s'")` for `Notify` with the channel `c` and the payload `it's`.
#![tactic(auto)]

mod bytes;
mod commands;
mod enclosed;
mod grammar;
mod lexer;
mod line_parsing;
mod parser;
mod quotes;
mod statement;
mod texts;
mod token;
mod verb;

pub use bytes::{blanks, is_blank};
pub use commands::pg_notify;
pub use enclosed::Enclosed;
pub use lexer::Lexer;
pub use line_parsing::parse_line;
pub use quotes::{inside, unquoted};
pub use statement::Text;
pub use texts::cut;
pub use token::{Lexeme, Token};
pub use verb::is_word;

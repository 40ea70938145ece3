//! The words of the command line, read with `clap`.
//!
//! The definition is `AskFor` in `specs/Words.antt`: which command the words are, and the numbers that they give. `read_words` answers
//! what the words ask for, and `BadWords` exactly where they are no command. There is one command with one level of subcommands, and
//! no help or version words.
//!
//! A caller, in a test:
//!
//! ```
//! let asked = read_words(alloc, &["drill", "7", "8", "+200"]);
//! assert!(rt; matches!(asked, Ok(Asked::Drill { seed: 7, sessions: 8, notes: 200 })));
//! assert!(rt; matches!(read_words(alloc, &["run", "--pages", "1"]), Err(WordsFault::BadWords)));
//! ```
#![tactic(auto)]

mod asked;
mod command;
mod limits;
mod options;
mod reading;

pub use asked::Asked;
pub use limits::{DRILL_NOTES_MAX, DRILL_SESSIONS_MAX, PATIENCE_MAX, SEATS_DEFAULT, SEATS_MAX};
pub use reading::{WordsFault, read_words};

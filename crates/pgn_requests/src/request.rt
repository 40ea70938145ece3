use crate::{Settled, Wording};
use pgn_base::Command;
use pgn_language::LineText;

/// What a client's text asks for.
#[derive(Drop)]
pub enum Request {
    /// A line of the session's script: its text, its command, and how its answer is put.
    Line {
        text: LineText,
        command: Command,
        wording: Wording,
    },
    /// Something that is settled without the session.
    Settles(Settled),
    /// `DISCARD ALL`: two lines of the script, of which the first fails a block, and the second ends all listening.
    Discards,
}

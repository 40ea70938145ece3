ghost use Rattle.std.specs.Prelude.{◌≡◌, ◌≤◌, length, Contains, IfOk};
ghost use Rattle.pgn_language.specs.Lines.{text_says, command_says};
ghost use Rattle.pgn_language.specs.Grammar.{reading};
ghost use Rattle.pgn_scenario.specs.Saying.{told};

use crate::meta::meta_of;
use pgn_base::{Command, DbOid, LINE_BYTES_MAX, Name};
use pgn_command::parse_line;
use std::alloc::{AllocError, Global};

/// What a line says.
#[derive(Drop)]
pub enum Said {
    /// It is blank.
    Nothing,
    /// A section of this name and database begins.
    Opens(Name, DbOid),
    /// The session does something.
    Does(Deed),
    /// It begins as a meta line and is none.
    NoMeta,
}

/// What a session does at a line. A flag goes by its name.
#[derive(Drop)]
pub enum Deed {
    Runs(Command),
    Signals(Name),
    Awaits(Name),
    Quits,
}

/// What a text says.
pub fn said_of(alloc: Global, text: &str) -> Result<Said, AllocError>
    requires short { length text.now ≤ LINE_BYTES_MAX }
    requires no_nul { Contains text.now 0 → ⊥ }
    ensures { IfOk result (λ said. told said ≡ text_says text.now) }
{
    match text.as_bytes() {
        [b'\\', ..] => meta_of(alloc, text),
        _ => command_of(alloc, text),
    }
}

// What a text says that is no meta line.
fn command_of(alloc: Global, text: &str) -> Result<Said, AllocError>
    requires short { length text.now ≤ LINE_BYTES_MAX }
    requires no_nul { Contains text.now 0 → ⊥ }
    ensures { IfOk result (λ said. told said ≡ command_says (reading text.now)) }
{
    match parse_line(alloc, text)? {
        Command::Empty => Ok(Said::Nothing),
        command => Ok(Said::Does(Deed::Runs(command))),
    }
}

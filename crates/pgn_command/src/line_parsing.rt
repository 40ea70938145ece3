ghost use Rattle.std.specs.Prelude.{◌≤◌, length, Contains, IfOk};
ghost use Rattle.pgn_language.specs.Grammar.{ReadsAs};

use crate::commands::command_of;
use crate::parser::Parser;
use pgn_base::{Command, LINE_BYTES_MAX};
use std::alloc::{AllocError, Global};

/// The command that a line reads as. Each line reads as exactly one, so that this says which in both directions: `Bad` with the
/// byte, counted from 0, where it goes wrong is given exactly where the table of commands has no form for it, and `Invalid`
/// exactly where its notification goes past a limit. Want of memory is the one refusal.
pub fn parse_line(alloc: Global, line: &str) -> Result<Command, AllocError>
    requires short { length line.now ≤ LINE_BYTES_MAX }
    requires no_nul { Contains line.now 0 → ⊥ }
    ensures { IfOk result (ReadsAs line.now) }
{
    let mut parser = Parser::new(line);
    match parser.statement() {
        Ok(statement) => command_of(alloc, statement),
        Err(stop) => Ok(Command::Bad { at: stop.at as u32 }),
    }
}

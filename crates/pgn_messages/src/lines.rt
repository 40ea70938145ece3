ghost use Rattle.std.specs.Prelude.{◌≡◌, ◌≤◌, length, IfOk};
ghost use Rattle.pgn_base.specs.declared.text.TheConstants.{TEXT_BYTES_IN_PLACE};
ghost use Rattle.pgn_messages.specs.Asks.{discard_line, line_of, rollback_line, seat_quit, unlisten_line};

use crate::Asked;
use pgn_base::{Command, Copied};
use pgn_language::{Act, LineText, ScriptLine};
use std::alloc::{AllocError, Global};

impl Asked {
    /// The line that runs this query. Its text and its command are copied.
    pub fn script_line(&self, alloc: Global) -> Result<ScriptLine, AllocError>
        ensures { IfOk result (λ line. line ≡ line_of self.now) }
    {
        let text = self.text.copy(alloc)?;
        let Ok(command) = self.command.copy(alloc) else {
            drop(text);
            return Err(AllocError);
        };
        Ok(ScriptLine {
            line: self.line,
            text,
            act: Act::Run(command),
        })
    }
}

/// The first of the two lines that set a seat back, with this number. It takes no memory.
pub fn rollback_at(alloc: Global, line: u32) -> ScriptLine
    ensures { result ≡ rollback_line line }
{
    ScriptLine {
        line,
        text: short_text(alloc, "ROLLBACK"),
        act: Act::Run(Command::Rollback),
    }
}

/// The second of them. It takes no memory.
pub fn unlisten_at(alloc: Global, line: u32) -> ScriptLine
    ensures { result ≡ unlisten_line line }
{
    ScriptLine {
        line,
        text: short_text(alloc, "UNLISTEN *"),
        act: Act::Run(Command::UnlistenAll),
    }
}

/// The first of the two lines of `DISCARD ALL`, with this number: the session refuses it. It takes no memory.
pub fn discard_at(alloc: Global, line: u32) -> ScriptLine
    ensures { result ≡ discard_line line }
{
    ScriptLine {
        line,
        text: short_text(alloc, "DISCARD ALL"),
        act: Act::Run(Command::Bad { at: 0 }),
    }
}

/// The line that ends a seat's script. It takes no memory.
pub fn quit_at_end(alloc: Global) -> ScriptLine
    ensures { result ≡ seat_quit }
{
    ScriptLine {
        line: u32::MAX,
        text: short_text(alloc, "\\quit"),
        act: Act::Quit,
    }
}

// A text that is kept in place.
fn short_text(alloc: Global, text: &str) -> LineText
    requires { length text.now ≤ TEXT_BYTES_IN_PLACE }
    ensures { result ≡ text.now }
{
    let Ok(kept) = LineText::new(alloc, text) else {
        unreachable!()
    };
    kept
}

ghost use Rattle.std.specs.Prelude.{◌≡◌, ◌≤◌, cond, length};
ghost use Rattle.pgn_base.specs.declared.limits.TheConstants.{LINE_BYTES_MAX};
ghost use Rattle.pgn_base.specs.declared.command.Command.TheVariants as command;
ghost use Rattle.pgn_language.specs.Tokens.{tokens};
ghost use Rattle.pgn_language.specs.Grammar.{limited};
ghost use Rattle.pgn_language.specs.laws.Commands.{IsValid};
ghost use Rattle.pgn_requests.specs.declared.complaint.Wording.TheVariants as wording;
ghost use Rattle.pgn_requests.specs.Texts.{one_line};
ghost use Rattle.pgn_requests.specs.Reading.{bad_at, first_lexeme, read_line, worded};
ghost use Rattle.pgn_requests.specs.Phrases.{unread, commanded, is_past_limit, notifies};
ghost use Rattle.pgn_statements.specs.Lexemes.{meant};
ghost use Rattle.pgn_statements.specs.Calls.{note_of};
ghost use Rattle.pgn_statements.specs.Steps.{Gives};

use crate::calls::Call;
use crate::single_line::one_line;
use crate::words::is_key;
use pgn_base::Command;
use pgn_command::{Lexeme, Lexer, pg_notify};
use pgn_requests::{Request, Wording};
use std::alloc::{AllocError, Global};

/// The line that a bare text is with this command.
pub fn read_line(alloc: Global, text: &str, command: Command) -> Result<Request, AllocError>
    requires { length text.now ≤ LINE_BYTES_MAX }
    ensures { Gives result (read_line text.now command) }
{
    let wording = worded(text, &command);
    line(alloc, text, command, wording)
}

/// The line of a bare text that the session refuses at this byte as a syntax error.
pub fn unread(alloc: Global, text: &str, at: u32) -> Result<Request, AllocError>
    ensures { Gives result (unread text.now at) }
{
    line(alloc, text, Command::Bad { at }, Wording::Plain)
}

/// The line of a bare text that is another command in the table's words.
pub fn commanded(alloc: Global, text: &str, command: Command) -> Result<Request, AllocError>
    ensures { Gives result (commanded text.now command) }
{
    line(alloc, text, command, Wording::Plain)
}

/// The line of a bare text that is a call of pg_notify.
pub fn notifies(alloc: Global, text: &str, call: Call<'_>) -> Result<Request, AllocError>
    requires { IsValid (limited (command.PgNotify (note_of call))) }
    ensures { Gives result (notifies text.now (note_of call.entry)) }
{
    let command = pg_notify(alloc, call.channel, call.payload)?;
    let wording = called_wording(&command);
    line(alloc, text, command, wording)
}

// How the answer to a call of pg_notify is put.
fn called_wording(command: &Command) -> Wording
    ensures { result ≡ cond (is_past_limit command.now) wording.Called wording.Plain }
{
    if is_past_limit(command) {
        Wording::Called
    } else {
        Wording::Plain
    }
}

/// The line of a bare text.
pub fn line(
    alloc: Global,
    text: &str,
    command: Command,
    wording: Wording,
) -> Result<Request, AllocError>
    ensures { Gives result (Request.Line (one_line text.now) command wording) }
{
    match one_line(alloc, text) {
        Ok(text) => Ok(Request::Line {
            text,
            command,
            wording,
        }),
        Err(error) => {
            drop(command);
            drop(wording);
            Err(error)
        }
    }
}

/// The byte where a text is refused.
pub fn bad_at(command: &Command) -> Option<u32>
    ensures { result ≡ bad_at command.now }
{
    match command {
        Command::Bad { at } => Some(*at),
        _ => None,
    }
}

// How the answer to a command is put.
fn worded(text: &str, command: &Command) -> Wording
    requires { length text.now ≤ LINE_BYTES_MAX }
    ensures { result ≡ worded text.now command.now }
{
    if is_past_limit(command) && is_key(&first_lexeme(text), "select") {
        return Wording::Called;
    }
    Wording::Plain
}

fn is_past_limit(command: &Command) -> bool
    ensures { result ≡ is_past_limit command.now }
{
    matches!(command, Command::Invalid { .. })
}

// The first token.
fn first_lexeme(text: &str) -> Lexeme<'_>
    requires { length text.now ≤ LINE_BYTES_MAX }
    ensures { meant result ≡ first_lexeme (tokens text.now) }
{
    let mut lexer = Lexer::new(text);
    let token = lexer.next();
    token.lexeme
}

#![tactic(auto, using(crate::proofs::BytesLaws::joins))]

ghost use Rattle.std.specs.Prelude.{◌≡◌, ◌≤◌, ◌++◌, flat_map, length, OnOk};
ghost use Rattle.std.specs.Str.{str_to_ascii_lowercase};
ghost use Rattle.pgn_base.specs.declared.limits.TheConstants.{LINE_BYTES_MAX};
ghost use Rattle.pgn_language.specs.Tokens.{tokens};
ghost use Rattle.pgn_command.specs.Texts.{single};
ghost use Rattle.pgn_messages.specs.Cutting.{ends, notice_of};
ghost use Rattle.pgn_messages.specs.Served.{cut_notices, identifier_in, name_notice, token_notice};

use crate::{Asked, Bytes};
use pgn_base::{Command, LINE_BYTES_MAX, NAME_BYTES_MAX};
use pgn_command::{Enclosed, Lexeme, Lexer, cut, unquoted};
use std::alloc::{AllocError, Global};
use std::str;

// A name that was cut has so many bytes at least: a character has at most four.
const CUT_BYTES_MIN: usize = 60;

/// Puts a notice for each identifier in a query's text that is cut at the end. The text is looked at only where the name may have been. The
/// error is also that it is no UTF-8, or longer than a line: then nothing reads as a command.
pub fn put_cut_notices(alloc: Global, bytes: &mut Bytes, query: &Asked) -> Result<(), AllocError>
    ensures { OnOk result (bytes.new ≡ bytes.old ++ cut_notices query.now) }
{
    if identifier_bytes(&query.command) < CUT_BYTES_MIN {
        return Ok(());
    }
    let Ok(text) = str::from_utf8(query.text.as_bytes()) else {
        return Err(AllocError);
    };
    if text.len() > LINE_BYTES_MAX {
        return Err(AllocError);
    }
    put_notices(alloc, bytes, text)
}

// How many bytes the name of a command has that is an identifier in its text.
fn identifier_bytes(command: &Command) -> usize
    ensures { result ≡ length (identifier_in command.now) }
{
    match command {
        Command::Listen(name) => name.as_bytes().len(),
        Command::Unlisten(name) => name.as_bytes().len(),
        Command::Notify(note) => note.channel.as_bytes().len(),
        Command::Savepoint(name) => name.as_bytes().len(),
        Command::RollbackTo(name) => name.as_bytes().len(),
        Command::Release(name) => name.as_bytes().len(),
        _ => 0,
    }
}

// A notice for each identifier in a text that is cut.
fn put_notices(alloc: Global, bytes: &mut Bytes, text: &str) -> Result<(), AllocError>
    requires { length text.now ≤ LINE_BYTES_MAX }
    ensures { OnOk result (bytes.new ≡ bytes.old ++ flat_map token_notice (tokens text.now)) }
{
    let mut lexer = Lexer::new(text);
    'tokens: loop {
        let token = lexer.next();
        if is_end(&token.lexeme) {
            return Ok(());
        }
        put_notice(alloc, bytes, &token.lexeme)?;
    }
}

// The token is the end.
fn is_end(lexeme: &Lexeme<'_>) -> bool
    ensures { result ≡ ends lexeme.now }
{
    matches!(lexeme, Lexeme::End)
}

// The notice of a token that is an identifier, where it is cut.
fn put_notice(alloc: Global, bytes: &mut Bytes, lexeme: &Lexeme<'_>) -> Result<(), AllocError>
    ensures { OnOk result (bytes.new ≡ bytes.old ++ notice_of lexeme.now) }
{
    match lexeme {
        Lexeme::Word(word) => put_word_notice(alloc, bytes, word),
        Lexeme::Quoted(inside) => put_quoted_notice(alloc, bytes, *inside),
        _ => Ok(()),
    }
}

// That of a word, which is folded to lower case.
fn put_word_notice(alloc: Global, bytes: &mut Bytes, word: &str) -> Result<(), AllocError>
    ensures { OnOk result (bytes.new ≡ bytes.old ++ name_notice (str_to_ascii_lowercase word.now)) }
{
    let folded = word.to_ascii_lowercase(alloc)?;
    let put = put_name_notice(alloc, bytes, folded.as_str());
    drop(folded);
    put
}

// That of a quoted identifier.
fn put_quoted_notice(
    alloc: Global,
    bytes: &mut Bytes,
    inside: Enclosed<'_>,
) -> Result<(), AllocError>
    ensures { OnOk result (bytes.new ≡ bytes.old
        ++ name_notice (single inside.entry.quote inside.entry.raw.now)) }
{
    let text = unquoted(alloc, inside)?;
    let put = put_name_notice(alloc, bytes, text.as_str());
    drop(text);
    put
}

// That of a name.
fn put_name_notice(alloc: Global, bytes: &mut Bytes, name: &str) -> Result<(), AllocError>
    ensures { OnOk result (bytes.new ≡ bytes.old ++ name_notice name.now) }
{
    if name.len() <= NAME_BYTES_MAX {
        return Ok(());
    }
    bytes.put_cut_notice(alloc, name.as_bytes(), cut(name).as_bytes())
}

ghost use Rattle.std.specs.Prelude.{◌≡◌, ◌++◌, IfOk, OnOk, string_bytes};
ghost use Rattle.std.specs.Str.{str_to_ascii_lowercase};
ghost use Rattle.pgn_command.specs.Texts.{single};
ghost use Rattle.pgn_requests.specs.Phrases as told;
ghost use Rattle.pgn_statements.specs.Lexemes.{meant, all_meant};
ghost use Rattle.pgn_statements.specs.Steps.{IsPut};

use crate::words::is_sign;
use pgn_command::{Enclosed, Lexeme, unquoted};
use std::alloc::{AllocError, Global};

/// Puts the value that tokens are behind a text: one token, or two with a comma between them.
pub fn put_values(
    alloc: Global,
    text: &mut String,
    lexemes: &[Lexeme<'_>],
) -> Result<bool, AllocError>
    ensures { IfOk result (λ put. IsPut put (string_bytes text.old) (string_bytes text.new) (told.value_of (all_meant lexemes.now))) }
{
    match lexemes {
        [one] => put_value(alloc, text, one),
        [one, comma, other] if is_sign(comma, b',') => put_both(alloc, text, one, other),
        _ => Ok(false),
    }
}

// Puts the values that two tokens are behind a text, with a comma between them.
fn put_both(
    alloc: Global,
    text: &mut String,
    one: &Lexeme<'_>,
    other: &Lexeme<'_>,
) -> Result<bool, AllocError>
    ensures { IfOk result (λ put. IsPut put (string_bytes text.old) (string_bytes text.new)
        (told.joined (told.value_text (meant one.now)) (told.value_text (meant other.now)))) }
{
    if !put_value(alloc, text, one)? {
        return Ok(false);
    }
    text.push_str(", ")?;
    put_value(alloc, text, other)
}

// Puts the value that a token is behind a text.
fn put_value(alloc: Global, text: &mut String, lexeme: &Lexeme<'_>) -> Result<bool, AllocError>
    ensures { IfOk result (λ put. IsPut put (string_bytes text.old) (string_bytes text.new) (told.value_text (meant lexeme.now))) }
{
    match lexeme {
        Lexeme::Word(word) => {
            put_lower(alloc, text, word)?;
            Ok(true)
        }
        Lexeme::Quoted(inside) => {
            put_unquoted(alloc, text, inside)?;
            Ok(true)
        }
        Lexeme::Literal(inside) => {
            put_unquoted(alloc, text, inside)?;
            Ok(true)
        }
        Lexeme::Number(digits) => {
            text.push_str(digits)?;
            Ok(true)
        }
        _ => Ok(false),
    }
}

// A word in lower case.
fn put_lower(alloc: Global, text: &mut String, word: &str) -> Result<(), AllocError>
    ensures { OnOk result (string_bytes text.new ≡ string_bytes text.old ++ str_to_ascii_lowercase word.now) }
{
    let lower = word.to_ascii_lowercase(alloc)?;
    text.push_str(lower.as_str())
}

// What stands between quotes, each quote in it once.
fn put_unquoted(alloc: Global, text: &mut String, inside: &Enclosed<'_>) -> Result<(), AllocError>
    ensures { OnOk result (string_bytes text.new ≡ string_bytes text.old ++ single inside.now.quote inside.now.raw.now) }
{
    let made = unquoted(alloc, *inside)?;
    text.push_str(made.as_str())
}

ghost use Rattle.std.specs.Prelude.{◌≡◌};
ghost use Rattle.pgn_requests.specs.Phrases as told;
ghost use Rattle.pgn_statements.specs.Lexemes.{all_meant, GoesOn};

use crate::words::{after_one, after_two, is_sign};
use pgn_command::Lexeme;

/// The tokens are at most so many modes of a transaction, with commas between them or without.
pub fn are_modes(lexemes: &[Lexeme<'_>], most: usize) -> bool
    ensures { result ≡ told.are_modes most (all_meant lexemes.now) }
{
    if most == 0 {
        return false;
    }
    match past_mode(lexemes) {
        Some([]) => true,
        Some(rest) => are_modes(past_comma(rest), most - 1),
        None => false,
    }
}

// The tokens after a mode.
fn past_mode<'l, 'a>(lexemes: &'l [Lexeme<'a>]) -> Option<&'l [Lexeme<'a>]>
    ensures { GoesOn result (told.past_mode (all_meant lexemes.now)) }
{
    if let Some(rest) = after_one(lexemes, "deferrable") {
        return Some(rest);
    }
    if let Some(rest) = after_two(lexemes, "not", "deferrable") {
        return Some(rest);
    }
    if let Some(rest) = after_two(lexemes, "read", "write") {
        return Some(rest);
    }
    if let Some(rest) = after_two(lexemes, "read", "only") {
        return Some(rest);
    }
    match after_two(lexemes, "isolation", "level") {
        Some(rest) => past_level(rest),
        None => None,
    }
}

// The tokens after how a transaction is kept apart from others.
fn past_level<'l, 'a>(lexemes: &'l [Lexeme<'a>]) -> Option<&'l [Lexeme<'a>]>
    ensures { GoesOn result (told.past_level (all_meant lexemes.now)) }
{
    if let Some(rest) = after_one(lexemes, "serializable") {
        return Some(rest);
    }
    if let Some(rest) = after_two(lexemes, "repeatable", "read") {
        return Some(rest);
    }
    if let Some(rest) = after_two(lexemes, "read", "committed") {
        return Some(rest);
    }
    after_two(lexemes, "read", "uncommitted")
}

// Without the comma at the front, where a token stands after it.
fn past_comma<'l, 'a>(lexemes: &'l [Lexeme<'a>]) -> &'l [Lexeme<'a>]
    ensures { all_meant result.now ≡ told.past_comma (all_meant lexemes.now) }
{
    match lexemes {
        [comma, rest @ ..] if is_sign(comma, b',') && !rest.is_empty() => rest,
        _ => lexemes,
    }
}

/// Without WORK or TRANSACTION at the front.
pub fn past_work<'l, 'a>(lexemes: &'l [Lexeme<'a>]) -> &'l [Lexeme<'a>]
    ensures { all_meant result.now ≡ told.past_work (all_meant lexemes.now) }
{
    if let Some(rest) = after_one(lexemes, "work") {
        return rest;
    }
    if let Some(rest) = after_one(lexemes, "transaction") {
        return rest;
    }
    lexemes
}

ghost use Rattle.std.specs.Prelude.{◌≡◌};
ghost use Rattle.pgn_language.specs.Grammar.{Punct, fits_slot};
ghost use Rattle.pgn_requests.specs.Phrases as told;
ghost use Rattle.pgn_statements.specs.Lexemes.{meant, all_meant, GoesOn};

use crate::choices::is_same;
use pgn_command::{Lexeme, is_word};

/// The token is this word, without regard to ASCII case.
pub fn is_key(lexeme: &Lexeme<'_>, word: &str) -> bool
    ensures { result ≡ told.is_key word.now (meant lexeme.now) }
{
    match lexeme {
        Lexeme::Word(text) => is_word(text, word),
        _ => false,
    }
}

/// The token is this sign.
pub fn is_sign(lexeme: &Lexeme<'_>, sign: u8) -> bool
    ensures { result ≡ fits_slot (Punct sign) (meant lexeme.now) }
{
    match lexeme {
        Lexeme::Sign(other) => sign == *other,
        _ => false,
    }
}

/// The token is a word or a quoted identifier.
pub fn is_name(lexeme: &Lexeme<'_>) -> bool
    ensures { result ≡ told.is_name (meant lexeme.now) }
{
    matches!(lexeme, Lexeme::Word(_) | Lexeme::Quoted(_))
}

/// The tokens are this word and no other.
pub fn is_one(lexemes: &[Lexeme<'_>], word: &str) -> bool
    ensures { result ≡ told.is_one word.now (all_meant lexemes.now) }
{
    match lexemes {
        [a] => is_key(a, word),
        _ => false,
    }
}

/// The tokens are these two words.
pub fn are_two(lexemes: &[Lexeme<'_>], one: &str, other: &str) -> bool
    ensures { result ≡ told.are_two one.now other.now (all_meant lexemes.now) }
{
    match lexemes {
        [a, b] => is_key(a, one) && is_key(b, other),
        _ => false,
    }
}

/// The tokens are these three words.
pub fn are_three(lexemes: &[Lexeme<'_>], one: &str, other: &str, third: &str) -> bool
    ensures { result ≡ told.are_three one.now other.now third.now (all_meant lexemes.now) }
{
    match lexemes {
        [a, b, c] => is_key(a, one) && is_key(b, other) && is_key(c, third),
        _ => false,
    }
}

/// The tokens after this word, if they begin with it.
pub fn after_one<'l, 'a>(lexemes: &'l [Lexeme<'a>], word: &str) -> Option<&'l [Lexeme<'a>]>
    ensures { GoesOn result (told.after_one word.now (all_meant lexemes.now)) }
{
    match lexemes {
        [a, rest @ ..] if is_key(a, word) => Some(rest),
        _ => None,
    }
}

/// The tokens after these two words, if they begin with them.
pub fn after_two<'l, 'a>(
    lexemes: &'l [Lexeme<'a>],
    one: &str,
    other: &str,
) -> Option<&'l [Lexeme<'a>]>
    ensures { GoesOn result (told.after_two one.now other.now (all_meant lexemes.now)) }
{
    match lexemes {
        [a, b, rest @ ..] if is_key(a, one) && is_key(b, other) => Some(rest),
        _ => None,
    }
}

/// The tokens after this sign, if they begin with it.
pub fn after_sign<'l, 'a>(lexemes: &'l [Lexeme<'a>], sign: u8) -> Option<&'l [Lexeme<'a>]>
    ensures { GoesOn result (told.after_sign sign (all_meant lexemes.now)) }
{
    match lexemes {
        [a, rest @ ..] if is_sign(a, sign) => Some(rest),
        _ => None,
    }
}

/// The tokens are this sign and no other.
pub fn is_one_sign(lexemes: &[Lexeme<'_>], sign: u8) -> bool
    ensures { result ≡ told.is_one_sign sign (all_meant lexemes.now) }
{
    match lexemes {
        [a] => is_sign(a, sign),
        _ => false,
    }
}

/// The tokens are a call of this function without arguments.
pub fn is_call(lexemes: &[Lexeme<'_>], word: &str) -> bool
    ensures { result ≡ told.is_call word.now (all_meant lexemes.now) }
{
    match lexemes {
        [a, b, c] => is_key(a, word) && is_sign(b, b'(') && is_sign(c, b')'),
        _ => false,
    }
}

/// The tokens are a `*`, FROM, and a call of this function without arguments.
pub fn is_all_of(lexemes: &[Lexeme<'_>], word: &str) -> bool
    ensures { result ≡ told.is_all_of word.now (all_meant lexemes.now) }
{
    match after_all_from(lexemes) {
        Some(rest) => is_call(rest, word),
        None => false,
    }
}

// The tokens after a `*` and FROM, if they begin with these.
fn after_all_from<'l, 'a>(lexemes: &'l [Lexeme<'a>]) -> Option<&'l [Lexeme<'a>]>
    ensures { GoesOn result (told.after_all_from (all_meant lexemes.now)) }
{
    match lexemes {
        [a, b, rest @ ..] if is_sign(a, b'*') && is_key(b, "from") => Some(rest),
        _ => None,
    }
}

/// The tokens are the number that is written so, and no other.
pub fn is_one_number(lexemes: &[Lexeme<'_>], written: &str) -> bool
    ensures { result ≡ told.is_one_number written.now (all_meant lexemes.now) }
{
    match lexemes {
        [a] => is_number(a, written),
        _ => false,
    }
}

fn is_number(lexeme: &Lexeme<'_>, written: &str) -> bool
    ensures { result ≡ told.is_number written.now (meant lexeme.now) }
{
    match lexeme {
        Lexeme::Number(digits) => is_same(true, written, digits.as_bytes()),
        _ => false,
    }
}

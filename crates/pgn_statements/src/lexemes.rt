ghost use Rattle.std.specs.Prelude.{◌≡◌, ◌+◌, ◌≤◌, ◌∷◌, [], ◌++◌, length, OnOk};
ghost use Rattle.std.specs.List.{prefix_len};
ghost use Rattle.pgn_base.specs.declared.limits.TheConstants.{LINE_BYTES_MAX};
ghost use Rattle.pgn_language.specs.Tokens.{tokens};
ghost use Rattle.pgn_language.specs.Grammar.{lexemes_of};
ghost use Rattle.pgn_requests.specs.declared.limits.TheConstants.{TOKENS_MAX};
ghost use Rattle.pgn_requests.specs.Phrases.{is_before_equals, spread};
ghost use Rattle.pgn_statements.specs.Lexemes.{meant, all_meant, some_of, IsEqualsAt};
ghost use Rattle.pgn_statements.specs.Steps.{ends};

use pgn_command::{Lexeme, Lexer};
use pgn_requests::TOKENS_MAX;
use std::alloc::AllocError;

/// Puts the tokens of a text behind others, with TO for a `=` that stands before each literal. What is past one token more than a text may
/// have is left out.
pub fn collect_spread<'a>(lexemes: &mut Vec<Lexeme<'a>>, text: &'a str) -> Result<(), AllocError>
    requires few { length lexemes.old.items ≤ TOKENS_MAX + 1 }
    requires short { length text.now ≤ LINE_BYTES_MAX }
    ensures { OnOk result (all_meant lexemes.new.items ≡ some_of (all_meant lexemes.old.items ++ spread text.now)) }
{
    let Some(at) = equals_at(text) else {
        return collect(lexemes, text);
    };
    collect(lexemes, &text[..at])?;
    put(lexemes, Lexeme::Word("to"))?;
    collect(lexemes, &text[at + 1..])
}

// Where a `=` stands before each literal.
fn equals_at(text: &str) -> Option<usize>
    ensures { IsEqualsAt text.now result }
{
    let at = before_equals(text.as_bytes());
    match text.as_bytes().get(at) {
        Some(b'=') => Some(at),
        _ => None,
    }
}

// How many bytes stand before the first `=` or quote of a literal.
fn before_equals(bytes: &[u8]) -> usize
    ensures value { result ≡ prefix_len is_before_equals bytes.now }
    ensures within { result ≤ length bytes.now }
{
    for (at, byte) in bytes.iter().enumerate() {
        if *byte == b'=' || *byte == b'\'' {
            return at;
        }
    }
    bytes.len()
}

// Puts the tokens of a text behind others.
fn collect<'a>(lexemes: &mut Vec<Lexeme<'a>>, text: &'a str) -> Result<(), AllocError>
    requires few { length lexemes.old.items ≤ TOKENS_MAX + 1 }
    requires short { length text.now ≤ LINE_BYTES_MAX }
    ensures few { length lexemes.new.items ≤ TOKENS_MAX + 1 }
    ensures all { OnOk result (all_meant lexemes.new.items ≡ some_of (all_meant lexemes.old.items ++ lexemes_of (tokens text.now))) }
{
    let mut lexer = Lexer::new(text);
    'tokens: loop {
        let token = lexer.next();
        if is_end(&token.lexeme) {
            return Ok(());
        }
        put(lexemes, token.lexeme)?;
    }
}

// The token is the end.
fn is_end(lexeme: &Lexeme<'_>) -> bool
    ensures { result ≡ ends lexeme.now }
{
    matches!(lexeme, Lexeme::End)
}

// Puts a token behind others, if it is not past one more than a text may have.
fn put<'a>(lexemes: &mut Vec<Lexeme<'a>>, lexeme: Lexeme<'a>) -> Result<(), AllocError>
    requires { length lexemes.old.items ≤ TOKENS_MAX + 1 }
    ensures few { length lexemes.new.items ≤ TOKENS_MAX + 1 }
    ensures all { OnOk result (all_meant lexemes.new.items ≡ some_of (all_meant lexemes.old.items ++ meant lexeme.entry ∷ [])) }
{
    if lexemes.len() <= TOKENS_MAX {
        lexemes.push(lexeme)?;
    }
    Ok(())
}

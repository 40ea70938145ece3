ghost use Rattle.std.specs.Prelude.{◌≡◌, ◌<◌, ◌≤◌, drop, length, IfOk, MatchOption, None, string_bytes};
ghost use Rattle.pgn_base.specs.declared.limits.TheConstants.{LINE_BYTES_MAX};
ghost use Rattle.pgn_language.specs.Tokens.{closed};
ghost use Rattle.pgn_command.specs.Texts.{single, starts, FindsQuote, IsInside};

use crate::enclosed::Enclosed;
use memchr::memchr;
use std::alloc::{AllocError, Global};

/// The text of what stands between two quotes, each quote in it once. Its length is known before it is built.
pub fn unquoted(alloc: Global, inside: Enclosed<'_>) -> Result<String, AllocError>
    ensures { IfOk result (λ text. string_bytes text ≡ single inside.entry.quote inside.entry.raw.now) }
{
    let quote = inside.quote;
    let mut text = String::with_capacity(alloc, inside.len())?;
    let mut rest = inside.raw;
    while let Some(at) = quote_from(rest.as_bytes(), 0, quote) {
        text.push_str(&rest[..at + 1])?;
        rest = &rest[at + 2..];
    }
    text.push_str(rest)?;
    Ok(text)
}

/// What stands before the closing quote, in a text that follows an opening one.
pub fn inside(text: &str, quote: u8) -> Option<Enclosed<'_>>
    requires ascii { quote < 128 }
    requires short { length text.now ≤ LINE_BYTES_MAX }
    ensures { MatchOption result (closed quote text.now ≡ None) (λ inside. IsInside quote text.now inside.quote inside.raw.now) }
{
    let bytes = text.as_bytes();
    let mut doubled = 0;
    let mut end = 0;
    while let Some(at) = quote_from(bytes, end, quote) {
        if !is_quote(bytes, at + 1, quote) {
            let raw = &text[..at];
            return Some(Enclosed {
                quote,
                raw,
                doubled,
            });
        }
        doubled += 1;
        end = at + 2;
    }
    None
}

// Where the first quote from a byte on stands.
fn quote_from(bytes: &[u8], from: usize, quote: u8) -> Option<usize>
    requires { from ≤ length bytes.now }
    ensures { FindsQuote quote bytes.now from result }
{
    let next = memchr(quote, &bytes[from..])?;
    Some(from + next)
}

// The quote stands there.
fn is_quote(bytes: &[u8], at: usize, quote: u8) -> bool
    ensures { result ≡ starts quote (drop at bytes.now) }
{
    match bytes.get(at) {
        Some(byte) => *byte == quote,
        None => false,
    }
}

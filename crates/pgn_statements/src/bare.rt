ghost use Rattle.std.specs.Prelude.{◌≡◌, ◌+◌, ◌<◌, ◌≤◌, true, length, slice_index, Contains, IfOk, string_bytes};
ghost use Rattle.std.specs.List.{prefix_len, suffix_len};
ghost use Rattle.pgn_base.specs.declared.limits.TheConstants.{LINE_BYTES_MAX};
ghost use Rattle.pgn_requests.specs.Texts.{is_tail, plain, without_head, without_tail};
ghost use Rattle.pgn_statements.specs.Modes.{byte_before, is_break, is_calm};

use crate::byte_modes::{give, give_end, next_mode};
use memchr::memchr3;
use pgn_requests::Mode;
use std::alloc::{AllocError, Global};

/// A text has no line feed, no `/*` and no `--`, so that nothing is taken out of it.
pub(crate) fn is_plain(text: &[u8]) -> bool
    ensures { result ≡ is_calm 0 text.now }
{
    let mut rest = text;
    let mut before = 0;
    while let Some(at) = memchr3(b'\n', b'*', b'-', rest) {
        before = byte_before(before, rest, at);
        if is_break(before, rest[at]) {
            return false;
        }
        before = rest[at];
        let here = &rest[at..];
        rest = &here[1..];
    }
    true
}

// The byte before one of some, which stand behind this one.
fn byte_before(before: u8, bytes: &[u8], at: usize) -> u8
    requires { at < length bytes.now }
    ensures { result ≡ byte_before before bytes.now at }
{
    if at == 0 {
        return before;
    }
    bytes[at - 1]
}

// A byte after another is a line feed, or the two begin a comment.
fn is_break(before: u8, byte: u8) -> bool
    ensures { result ≡ is_break before byte }
{
    byte == b'\n' || (before == b'/' && byte == b'*') || (before == b'-' && byte == b'-')
}

/// A text with a blank for each comment and for each line feed outside of quotes.
pub(crate) fn plain(alloc: Global, text: &str) -> Result<String, AllocError>
    requires short { length text.now ≤ LINE_BYTES_MAX }
    requires no_nul { Contains text.now 0 → ⊥ }
    ensures text { IfOk result (λ made. string_bytes made ≡ plain text.now) }
    ensures short { IfOk result (λ made. length (string_bytes made) ≤ LINE_BYTES_MAX) }
    ensures no_nul { IfOk result (λ made. Contains (string_bytes made) 0 → ⊥) }
{
    let bytes = plain_bytes(alloc, text.as_bytes())?;
    Ok(String::from_utf8(bytes).unwrap())
}

fn plain_bytes(alloc: Global, text: &[u8]) -> Result<Vec<u8>, AllocError>
    requires { length text.now ≤ LINE_BYTES_MAX }
    ensures { IfOk result (λ made. made.items ≡ plain text.now) }
{
    let mut made = Vec::with_capacity(alloc, text.len())?;
    let mut mode = Mode::Outside;
    for byte in text {
        give(&mut made, mode, *byte)?;
        mode = next_mode(mode, *byte);
    }
    give_end(&mut made, mode)?;
    Ok(made)
}

/// A text without the blanks and `;` at its ends.
pub(crate) fn without_ends(text: &str) -> &str
    requires no_nul { Contains text.now 0 → ⊥ }
    ensures text { result.now ≡ without_head (without_tail text.now) }
    ensures short { length result.now ≤ length text.now }
    ensures no_nul { Contains result.now 0 → ⊥ }
{
    without_head(without_tail(text))
}

// A text without the blanks and `;` at its front.
fn without_head(text: &str) -> &str
    requires no_nul { Contains text.now 0 → ⊥ }
    ensures text { result.now ≡ without_head text.now }
    ensures short { length result.now ≤ length text.now }
    ensures no_nul { Contains result.now 0 → ⊥ }
{
    let start = head_end(text.as_bytes());
    &text[start..]
}

// Where the blanks and `;` at the front end.
fn head_end(bytes: &[u8]) -> usize
    ensures { result ≡ prefix_len is_tail bytes.now }
{
    for (at, byte) in bytes.iter().enumerate() {
        if !is_tail(*byte) {
            return at;
        }
    }
    bytes.len()
}

// A text without the blanks and `;` at its end.
fn without_tail(text: &str) -> &str
    requires no_nul { Contains text.now 0 → ⊥ }
    ensures text { result.now ≡ without_tail text.now }
    ensures short { length result.now ≤ length text.now }
    ensures no_nul { Contains result.now 0 → ⊥ }
{
    let end = tail_start(text.as_bytes());
    &text[..end]
}

// Where the blanks and `;` at the end begin.
fn tail_start(bytes: &[u8]) -> usize
    ensures value { result + suffix_len is_tail bytes.now ≡ length bytes.now }
    ensures tail { result < length bytes.now → is_tail (slice_index bytes.now result) ≡ true }
{
    let mut end = bytes.len();
    while end > 0 && is_tail(bytes[end - 1]) {
        end -= 1;
    }
    end
}

// A blank or a `;`.
fn is_tail(byte: u8) -> bool
    ensures { result ≡ is_tail byte }
{
    byte == b' ' || byte == b'\t' || byte == b'\r' || byte == 12 || byte == 11 || byte == b';'
}

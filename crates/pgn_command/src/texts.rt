ghost use Rattle.std.specs.Prelude.{◌≡◌, length, IfOk, IfSome, string_bytes};
ghost use Rattle.std.specs.List.{repeat, list_all};
ghost use Rattle.std.specs.Str.{str_to_ascii_lowercase};
ghost use Rattle.pgn_base.specs.Texts.{IsName, IsPayload};
ghost use Rattle.pgn_language.specs.Grammar as grammar;
ghost use Rattle.pgn_command.specs.Statements.{ident_name, is_folded, text_bytes};

use crate::statement::{Ident, Text};
use crate::unquoted;
use pgn_base::{NAME_BYTES_MAX, Name, Payload};
use std::alloc::{AllocError, Global};

/// Up to so many times a text is repeated one by one; more often by doubling what is there.
const FEW: usize = 8;

/// The name that a word or a quoted identifier is: a word is folded to lower case, and both are cut.
pub fn name_of(alloc: Global, ident: Ident<'_>) -> Result<Name, AllocError>
    requires { IsName (ident_name ident) }
    ensures { IfOk result (λ name. name ≡ ident_name ident.entry) }
{
    match ident {
        Ident::Word(word) => word_name(alloc, cut(word)),
        Ident::Quoted(inside) => match inside.plain() {
            Some(text) => Name::of_valid(alloc, cut(text)),
            None => cut_name(alloc, unquoted(alloc, inside)?),
        },
    }
}

// The name that a word is, folded to lower case. One that is so already is not built.
fn word_name(alloc: Global, word: &str) -> Result<Name, AllocError>
    requires { IsName (str_to_ascii_lowercase word.now) }
    ensures { IfOk result (λ name. name ≡ str_to_ascii_lowercase word.now) }
{
    if are_folded(word.as_bytes()) {
        return Name::of_valid(alloc, word);
    }
    let folded = word.to_ascii_lowercase(alloc)?;
    Name::of_valid_string(folded)
}

// Each byte is what it is folded to.
fn are_folded(word: &[u8]) -> bool
    ensures { result ≡ list_all is_folded word.now }
{
    word.iter().all(|byte| is_folded(*byte))
}

fn is_folded(byte: u8) -> bool
    ensures { result ≡ is_folded byte }
{
    byte.to_ascii_lowercase() == byte
}

// The name that a text is, which is cut if it is long.
fn cut_name(alloc: Global, text: String) -> Result<Name, AllocError>
    requires { IsName (grammar.cut NAME_BYTES_MAX (string_bytes text)) }
    ensures { IfOk result (λ name. name ≡ grammar.cut NAME_BYTES_MAX (string_bytes text)) }
{
    if text.len() <= NAME_BYTES_MAX {
        return Name::of_valid_string(text);
    }
    // A copy, so that the name does not keep the memory of the whole text.
    Name::of_valid(alloc, cut(text.as_str()))
}

/// The name that the text of an argument is.
pub fn channel_of(alloc: Global, text: Text<'_>) -> Result<Name, AllocError>
    requires { IsName (text_bytes text) }
    ensures { IfOk result (λ name. name ≡ text_bytes text.entry) }
{
    match plain(text) {
        Some(text) => Name::of_valid(alloc, text),
        None => {
            let text = built(alloc, text)?;
            Name::of_valid_string(text)
        }
    }
}

/// The payload that the text of an argument is.
pub fn payload_of(alloc: Global, text: Text<'_>) -> Result<Payload, AllocError>
    requires { IsPayload (text_bytes text) }
    ensures { IfOk result (λ payload. payload ≡ text_bytes text.entry) }
{
    match plain(text) {
        Some(text) => Payload::of_valid(alloc, text),
        None => {
            let text = built(alloc, text)?;
            Payload::of_valid_string(text)
        }
    }
}

/// How many bytes a text has, before it is built.
pub fn text_len(text: Text<'_>) -> usize
    ensures { result ≡ length (text_bytes text.entry) }
{
    match text {
        Text::Literal(inside) => inside.len(),
        Text::Null => 0,
        Text::Repeat(inside, count) => count as usize * inside.len(),
    }
}

// The part of the line that a text is, if it is one.
fn plain(text: Text<'_>) -> Option<&str>
    ensures { IfSome result (λ plain. plain.now ≡ text_bytes text.entry) }
{
    match text {
        Text::Literal(inside) => inside.plain(),
        Text::Null => Some(""),
        Text::Repeat(..) => None,
    }
}

fn built(alloc: Global, text: Text<'_>) -> Result<String, AllocError>
    ensures { IfOk result (λ built. string_bytes built ≡ text_bytes text.entry) }
{
    match text {
        Text::Literal(inside) => unquoted(alloc, inside),
        Text::Null => Ok(String::new(alloc)),
        Text::Repeat(inside, count) => {
            let once = unquoted(alloc, inside)?;
            repeated(alloc, once.as_str(), count as usize)
        }
    }
}

// A text so many times. It is doubled, so that few long pieces are copied and not many short ones.
fn repeated(alloc: Global, once: &str, count: usize) -> Result<String, AllocError>
    ensures { IfOk result (λ text. string_bytes text ≡ repeat count once.now) }
{
    if count <= FEW {
        return once.repeat(alloc, count);
    }
    let Some(length) = once.len().checked_mul(count) else {
        return Err(AllocError);
    };
    let half = repeated(alloc, once, count / 2)?;
    let mut text = String::with_capacity(alloc, length)?;
    text.push_str(half.as_str())?;
    text.push_str(half.as_str())?;
    if count % 2 == 1 {
        text.push_str(once)?;
    }
    Ok(text)
}

/// The longest prefix of whole characters that is short enough for a name.
pub fn cut(text: &str) -> &str
    ensures { result.now ≡ grammar.cut NAME_BYTES_MAX text.now }
{
    let end = text.floor_char_boundary(NAME_BYTES_MAX);
    &text[..end]
}

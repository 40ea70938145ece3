ghost use Rattle.std.specs.Prelude.{◌≡◌, ℕ, List, ◌<◌, ◌≤◌, length, MatchOption, IfOk};
ghost use Rattle.pgn_base.specs.declared.limits.TheConstants.{LINE_BYTES_MAX};
ghost use Rattle.pgn_base.specs.Texts.{IsName, IsPayload};
ghost use Rattle.pgn_language.specs.Quotes.{quoted};
ghost use Rattle.pgn_command.specs.Texts.{single};
ghost use Rattle.pgn_lines.specs.Fields.{IsAlone, IsEnclosed, IsPair, NotEnclosed, pair_text};
ghost use Rattle.pgn_base.specs.Notes.{IsNote};
ghost use Rattle.pgn_base.specs.declared.note.Note.{Note};
ghost use Rattle.pgn_model.specs.Text.{note_text};

use crate::numbers::after;
use pgn_base::{LINE_BYTES_MAX, Name, NameFault, Note, Payload, PayloadFault};
use pgn_command::{Enclosed, inside, unquoted};
use std::alloc::{AllocError, Global};

/// What stands before a closing quote, and what follows the quote.
#[derive(Clone, Copy)]
pub struct Front<'a> {
    pub inside: Enclosed<'a>,
    pub rest: &'a str,
}

/// What stands before a closing quote, in a text that follows an opening one.
pub fn enclosed(text: &str, quote: u8) -> Option<Front<'_>>
    requires ascii { quote < 128 }
    requires short { length text.now ≤ LINE_BYTES_MAX }
    ensures { MatchOption result
        (NotEnclosed quote text.now)
        (λ front. (front.inside.quote ≡ quote)
        × IsEnclosed quote text.now (single front.inside.quote front.inside.raw.now) front.rest.now) }
{
    let Some(found) = inside(text, quote) else {
        return None;
    };
    let rest = &text[found.raw.len() + 1..];
    Some(Front {
        inside: found,
        rest,
    })
}

/// A channel and a payload between their quotes, as they are written.
#[derive(Clone, Copy)]
pub struct Pair<'a> {
    pub channel: Enclosed<'a>,
    pub payload: Enclosed<'a>,
}

/// The channel and the payload that a text is.
pub fn pair_of(text: &str) -> Option<Pair<'_>>
    requires short { length text.now ≤ LINE_BYTES_MAX }
    ensures { MatchOption result
        ((channel payload : List ℕ) → pair_text channel payload ≡ text.now → ⊥)
        (λ pair. IsPair text.now (single pair.channel.quote pair.channel.raw.now)
        (single pair.payload.quote pair.payload.raw.now)) }
{
    let Some(start) = after(text, "\"") else {
        return None;
    };
    let Some(channel) = enclosed(start, b'"') else {
        return None;
    };
    let Some(second) = after(channel.rest, ", '") else {
        return None;
    };
    let Some(payload) = enclosed(second, b'\'') else {
        return None;
    };
    if !payload.rest.is_empty() {
        return None;
    }
    Some(Pair {
        channel: channel.inside,
        payload: payload.inside,
    })
}

/// The notification that a text is.
pub fn note_of(alloc: Global, text: &str) -> Result<Option<Note>, AllocError>
    ensures { IfOk result (λ read. MatchOption read
        ((note : Note) → IsNote note → note_text note ≡ text.now → ⊥)
        (λ note. IsNote note × (note_text note ≡ text.now))) }
{
    if text.len() > LINE_BYTES_MAX {
        return Ok(None);
    }
    let Some(pair) = pair_of(text) else {
        return Ok(None);
    };
    let Some(channel) = name_of(alloc, pair.channel)? else {
        return Ok(None);
    };
    let Some(payload) = payload_of(alloc, pair.payload)? else {
        return Ok(None);
    };
    Ok(Some(Note { channel, payload }))
}

/// What stands between the double quotes of a text, as it is written.
pub fn alone_of(text: &str) -> Option<Enclosed<'_>>
    requires short { length text.now ≤ LINE_BYTES_MAX }
    ensures { MatchOption result
        ((name : List ℕ) → quoted 34 name ≡ text.now → ⊥)
        (λ inner. IsAlone text.now (single inner.quote inner.raw.now)) }
{
    let Some(start) = after(text, "\"") else {
        return None;
    };
    let Some(front) = enclosed(start, b'"') else {
        return None;
    };
    if !front.rest.is_empty() {
        return None;
    }
    Some(front.inside)
}

/// The name that a text is, between double quotes.
pub fn quoted_name(alloc: Global, text: &str) -> Result<Option<Name>, AllocError>
    ensures { IfOk result (λ read. MatchOption read
        ((name : List ℕ) → IsName name → quoted 34 name ≡ text.now → ⊥)
        (λ name. IsName name × (quoted 34 name ≡ text.now))) }
{
    if text.len() > LINE_BYTES_MAX {
        return Ok(None);
    }
    let Some(inner) = alone_of(text) else {
        return Ok(None);
    };
    name_of(alloc, inner)
}

/// The name that stands between quotes, if it is one.
pub fn name_of(alloc: Global, inner: Enclosed<'_>) -> Result<Option<Name>, AllocError>
    ensures { IfOk result (λ read. MatchOption read
        (IsName (single inner.entry.quote inner.entry.raw.now) → ⊥)
        (λ name. IsName name × (name ≡ single inner.entry.quote inner.entry.raw.now))) }
{
    match Name::from_string(unquoted(alloc, inner)?) {
        Ok(name) => {
            let _valid = name.as_bytes();
            Ok(Some(name))
        }
        Err(NameFault::Memory) => Err(AllocError),
        Err(_) => Ok(None),
    }
}

/// The payload that stands between quotes, if it is one.
pub fn payload_of(alloc: Global, inner: Enclosed<'_>) -> Result<Option<Payload>, AllocError>
    ensures { IfOk result (λ read. MatchOption read
        (IsPayload (single inner.entry.quote inner.entry.raw.now) → ⊥)
        (λ payload. IsPayload payload × (payload ≡ single inner.entry.quote inner.entry.raw.now))) }
{
    match Payload::from_string(unquoted(alloc, inner)?) {
        Ok(payload) => {
            let _valid = payload.as_bytes();
            Ok(Some(payload))
        }
        Err(PayloadFault::Memory) => Err(AllocError),
        Err(_) => Ok(None),
    }
}

/// The name that this text is, if it is one.
pub fn named(alloc: Global, text: &str) -> Result<Option<Name>, AllocError>
    ensures { IfOk result (λ read. MatchOption read
        (IsName text.now → ⊥)
        (λ name. IsName name × (name ≡ text.now))) }
{
    match Name::new(alloc, text) {
        Ok(name) => {
            let _valid = name.as_bytes();
            Ok(Some(name))
        }
        Err(NameFault::Memory) => Err(AllocError),
        Err(_) => Ok(None),
    }
}

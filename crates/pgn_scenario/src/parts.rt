ghost use Rattle.std.specs.Prelude.{◌≡◌, [], ◌∷◌, MatchOption};
ghost use Rattle.pgn_language.specs.Lines.{parts_of};
ghost use Rattle.pgn_scenario.specs.Parting.{IsParted};

use crate::bytes::{gap_bytes, part_bytes};

/// The parts of a meta line, which spaces and tabs separate, where they are as many as a meta line has.
#[derive(Clone, Copy)]
pub enum Parts<'a> {
    One(&'a str),
    Two(&'a str, &'a str),
    Three(&'a str, &'a str, &'a str),
    Other,
}

/// The parts of a text.
pub fn parts_of(text: &str) -> Parts<'_>
    ensures { IsParted result (parts_of text.now) }
{
    let Some((first, rest)) = next_part(text) else {
        return Parts::Other;
    };
    let Some((second, rest)) = next_part(rest) else {
        return Parts::One(first);
    };
    let Some((third, rest)) = next_part(rest) else {
        return Parts::Two(first, second);
    };
    match next_part(rest) {
        None => Parts::Three(first, second, third),
        Some(_) => Parts::Other,
    }
}

// The first part of a text, and what follows it.
fn next_part(text: &str) -> Option<(&str, &str)>
    ensures { MatchOption result (parts_of text.now ≡ [])
        (λ parts. parts_of text.now ≡ parts.0.now ∷ parts_of parts.1.now) }
{
    let start = gap_bytes(text.as_bytes());
    let rest = &text[start..];
    let end = part_bytes(rest.as_bytes());
    if end == 0 {
        return None;
    }
    Some((&rest[..end], &rest[end..]))
}

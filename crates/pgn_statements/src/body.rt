ghost use Rattle.pgn_statements.specs.Bodies.{BodyIs};

use memchr::memchr;
use std::str;

/// What a Query's body is.
#[derive(Clone, Copy)]
pub(crate) enum Body<'a> {
    /// A text and its zero byte.
    Text(&'a str),
    /// It does not end with its only zero byte.
    Garbled,
    /// What stands before this is no UTF-8.
    Encoded,
}

/// What a body is.
pub(crate) fn body_of(body: &[u8]) -> Body<'_>
    ensures { BodyIs body.now result }
{
    let Some((0, text)) = body.split_last() else {
        return Body::Garbled;
    };
    if memchr(0, text).is_some() {
        return Body::Garbled;
    }
    match str::from_utf8(text) {
        Ok(text) => Body::Text(text),
        Err(_) => Body::Encoded,
    }
}

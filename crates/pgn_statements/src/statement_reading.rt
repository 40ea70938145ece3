ghost use Rattle.std.specs.Prelude.{◌+◌, ◌≤◌, length, Contains, IfOk};
ghost use Rattle.pgn_base.specs.declared.limits.TheConstants.{LINE_BYTES_MAX};
ghost use Rattle.pgn_requests.specs.Texts.{bare};
ghost use Rattle.pgn_requests.specs.Reading.{RequestIs, request_of};
ghost use Rattle.pgn_statements.specs.Steps.{Gives, Asks};

use crate::asking::asked_of;
use crate::bare::{is_plain, plain, without_ends};
use crate::body::{Body, body_of};
use crate::complaining::refused_as;
use crate::lines::{bad_at, read_line};
use pgn_base::{Command, LINE_BYTES_MAX};
use pgn_command::parse_line;
use pgn_requests::{Cause, Request};
use std::alloc::{AllocError, Global};

/// What a Query's body asks for. Each body asks for exactly one thing, so that this says which in both directions. Want of memory is the one
/// refusal.
pub fn read_request(alloc: Global, body: &[u8]) -> Result<Request, AllocError>
    requires { length body.now ≤ LINE_BYTES_MAX + 1 }
    ensures { IfOk result (RequestIs body.now) }
{
    match body_of(body) {
        Body::Text(text) => read_text(alloc, text),
        Body::Garbled => refused_as(alloc, "", 0, Cause::BadMessage, "invalid message format"),
        Body::Encoded => refused_as(
            alloc,
            "",
            0,
            Cause::BadEncoding,
            "invalid byte sequence for encoding \"UTF8\"",
        ),
    }
}

// What a text asks for.
fn read_text(alloc: Global, text: &str) -> Result<Request, AllocError>
    requires short { length text.now ≤ LINE_BYTES_MAX }
    requires no_nul { Contains text.now 0 → ⊥ }
    ensures { IfOk result (Asks (bare text.now)) }
{
    if is_plain(text.as_bytes()) {
        return read_bare(alloc, without_ends(text));
    }
    let made = plain(alloc, text)?;
    read_bare(alloc, without_ends(made.as_str()))
}

// What a bare text asks for.
fn read_bare(alloc: Global, text: &str) -> Result<Request, AllocError>
    requires short { length text.now ≤ LINE_BYTES_MAX }
    requires no_nul { Contains text.now 0 → ⊥ }
    ensures { IfOk result (Asks text.now) }
{
    let command = parse_line(alloc, text)?;
    request_of(alloc, text, command)
}

// What a bare text asks for that reads as this command.
fn request_of(alloc: Global, text: &str, command: Command) -> Result<Request, AllocError>
    requires short { length text.now ≤ LINE_BYTES_MAX }
    requires no_nul { Contains text.now 0 → ⊥ }
    ensures { Gives result (request_of text.now command) }
{
    match bad_at(&command) {
        Some(at) => {
            drop(command);
            asked_of(alloc, text, at)
        }
        None => read_line(alloc, text, command),
    }
}

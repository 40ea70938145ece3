//! The first message of a client's bytes.
ghost use Rattle.std.specs.Prelude.{◌≡◌, ◌<◌, ◌≤◌, drop, length, slice_index, take};
ghost use Rattle.std.specs.Int.{from_be_bytes, w32};
ghost use Rattle.pgn_queries.specs.Client.{query_letter, terminate_letter};
ghost use Rattle.pgn_frames.specs.Callers.{HasFront, parting_behind};
ghost use Rattle.pgn_frames.specs.Clients.{asked_as, is_extended};

use pgn_messages::{Ask, Asked, Parting};
use pgn_queries::{QUERY_LENGTH_MAX, QUERY_LENGTH_MIN, TERMINATE_LENGTH};
use pgn_requests::Request;

// Where the body of a Query begins, behind its letter and its length.
pub(crate) const BODY_AT: usize = 5;

// What stands at the front of a client's bytes.
#[derive(Clone, Copy)]
pub(crate) enum Front {
    // No byte, or a message that is not whole.
    Unfinished,
    // A Query, with where it ends.
    Query(usize),
    // What ends the client, whatever follows, and how it parts by that.
    Parts(Parting),
}

// Looks at the first message of these bytes. Of one that is not whole nothing but that is told, once its letter and its length may be
// those of a message.
#[tactic(auto, using(crate::proofs::FrontLaws::front_laws))]
pub(crate) fn front_of(bytes: &[u8]) -> Front
    ensures { HasFront result bytes.now }
{
    if bytes.is_empty() {
        return Front::Unfinished;
    }
    match bytes[0] {
        b'Q' => front_of_query(bytes),
        b'X' => front_of_terminate(bytes),
        letter => front_of_other(letter, bytes),
    }
}

// A Query.
fn front_of_query(bytes: &[u8]) -> Front
    requires some { 0 < length bytes.now }
    requires letter { slice_index bytes.now 0 ≡ query_letter }
    ensures { HasFront result bytes.now }
{
    if bytes.len() < BODY_AT {
        return Front::Unfinished;
    }
    let len = length_of(bytes);
    if len < QUERY_LENGTH_MIN || len > QUERY_LENGTH_MAX {
        return Front::Parts(Parting::Refused);
    }
    let end = len as usize + 1;
    if bytes.len() < end {
        return Front::Unfinished;
    }
    Front::Query(end)
}

// A Terminate.
fn front_of_terminate(bytes: &[u8]) -> Front
    requires some { 0 < length bytes.now }
    requires letter { slice_index bytes.now 0 ≡ terminate_letter }
    ensures { HasFront result bytes.now }
{
    if bytes.len() < BODY_AT {
        return Front::Unfinished;
    }
    if length_of(bytes) != TERMINATE_LENGTH {
        return Front::Parts(Parting::Refused);
    }
    Front::Parts(Parting::Plain)
}

// A message with this letter, which is neither.
fn front_of_other(letter: u8, bytes: &[u8]) -> Front
    requires some { 0 < length bytes.now }
    requires letter { slice_index bytes.now 0 ≡ letter }
    requires no_query { letter ≡ query_letter → ⊥ }
    requires no_terminate { letter ≡ terminate_letter → ⊥ }
    ensures { HasFront result bytes.now }
{
    if is_extended(letter) {
        return Front::Parts(Parting::Extended);
    }
    Front::Parts(Parting::Refused)
}

// Whether a letter is that of a message of the extended protocol.
fn is_extended(letter: u8) -> bool
    ensures { result ≡ is_extended letter }
{
    matches!(
        letter,
        b'P' | b'B' | b'E' | b'D' | b'C' | b'S' | b'H' | b'F'
    )
}

// The length that stands behind a message's letter.
#[tactic(auto, using(crate::proofs::FrontLaws::four_laws))]
fn length_of(bytes: &[u8]) -> u32
    requires { 5 ≤ length bytes.now }
    ensures { result ≡ from_be_bytes w32 (take 4 (drop 1 bytes.now)) }
{
    u32::from_be_bytes([bytes[1], bytes[2], bytes[3], bytes[4]])
}

// A request as a seat is asked it, where its first line gets this number.
pub(crate) fn asked_at(line: u32, request: Request) -> Ask
    ensures { result ≡ asked_as line request }
{
    match request {
        Request::Line {
            text,
            command,
            wording,
        } => Ask::Query(Asked {
            line,
            text,
            command,
            wording,
        }),
        Request::Settles(settled) => Ask::Settle(settled),
        Request::Discards => Ask::Discard { line },
    }
}

// How a client parts that ends behind these bytes of a message.
pub(crate) fn parting_inside(begun: &[u8]) -> Parting
    ensures { result ≡ parting_behind begun.now }
{
    if begun.is_empty() {
        Parting::Plain
    } else {
        Parting::Refused
    }
}

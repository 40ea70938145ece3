ghost use Rattle.std.specs.Prelude.{◌≡◌, ◌≢◌, ◌<◌, ◌≤◌, ◌+◌, ◌∷◌, cond, length, take, Err, Ok, IfOk, OnOk};
ghost use Rattle.std.specs.Io.KnownBytes.{Consumes, IsAtEnd};
ghost use Rattle.pgn_base.specs.Outside.{HasCause, Rose};
ghost use Rattle.pgn_queries.specs.Client.{BodyIs, HasLength, IsBody, IsNoBody, IsQueryText, NextIs, OfKnown, QueryIs, TerminateIs};
ghost use Rattle.pgn_base.specs.declared.limits.TheConstants.{LINE_BYTES_MAX};

use crate::WireFault;
use crate::coming::Coming;
use crate::full_read::read_full;
use crate::limits::{QUERY_LENGTH_MAX, QUERY_LENGTH_MIN, TERMINATE_LENGTH};
use memchr::memchr;
use pgn_base::{Failed, Source};
use std::str;

/// Why nothing came.
#[derive(Clone, Copy)]
pub enum Unread {
    /// The source failed.
    Failed,
    Memory,
}

/// Reads the next message of a client, which begins at this offset. A Query's text stands in `text` then. No byte behind the message
/// is taken from the source, and of a message of a wrong type or length none behind what tells that.
#[tactic(auto, using(crate::proofs::ClientLaws::next_laws))]
pub fn next_message<S: Source>(
    source: &mut S,
    at: u64,
    text: &mut Vec<u8>,
) -> Result<Coming, Unread>
    ensures next { IfOk result (λ coming. OfKnown (NextIs at coming text.new.items) (S.left source.old) (S.left source.new)) }
    ensures sound { result ≡ Ok Coming.Query → IsQueryText text.new.items }
    ensures later { S.faults source.old ≤ S.faults source.new }
    ensures failed { result ≡ Err Unread.Failed → Rose (S.faults source.old) (S.faults source.new) }
    ensures rose { S.faults source.old < S.faults source.new → result ≡ Err Unread.Failed }
{
    let mut letter = [0u8; 1];
    match read_full(source, &mut letter) {
        Ok(0) => Ok(Coming::End),
        Ok(_) => after_letter(source, at, letter[0], text),
        Err(Failed) => Err(Unread::Failed),
    }
}

// What comes behind a message's letter.
#[tactic(auto, using(crate::proofs::ClientLaws::letter_laws))]
fn after_letter<S: Source>(
    source: &mut S,
    at: u64,
    letter: u8,
    text: &mut Vec<u8>,
) -> Result<Coming, Unread>
    ensures next { IfOk result (λ coming. OfKnown (λ bytes rest. NextIs at coming text.new.items (letter ∷ bytes) rest) (S.left source.old) (S.left source.new)) }
    ensures sound { result ≡ Ok Coming.Query → IsQueryText text.new.items }
    ensures later { S.faults source.old ≤ S.faults source.new }
    ensures failed { result ≡ Err Unread.Failed → Rose (S.faults source.old) (S.faults source.new) }
    ensures rose { S.faults source.old < S.faults source.new → result ≡ Err Unread.Failed }
{
    match letter {
        b'Q' => query(source, at, text),
        b'X' => terminate(source, at),
        _ => Ok(Coming::Fault(WireFault::BadType { at })),
    }
}

// Reads the length of a Terminate.
#[tactic(auto, using(crate::proofs::ClientLaws::length_laws))]
fn terminate<S: Source>(source: &mut S, at: u64) -> Result<Coming, Unread>
    ensures next { IfOk result (λ coming. OfKnown (TerminateIs at coming) (S.left source.old) (S.left source.new)) }
    ensures other { IfOk result (λ coming. coming ≢ Coming.Query) }
    ensures later { S.faults source.old ≤ S.faults source.new }
    ensures failed { result ≡ Err Unread.Failed → Rose (S.faults source.old) (S.faults source.new) }
    ensures rose { S.faults source.old < S.faults source.new → result ≡ Err Unread.Failed }
{
    match read_length(source) {
        Ok(Some(TERMINATE_LENGTH)) => Ok(Coming::End),
        Ok(Some(_)) => Ok(Coming::Fault(WireFault::BadLength { at })),
        Ok(None) => Ok(Coming::Fault(WireFault::Truncated { at })),
        Err(Failed) => Err(Unread::Failed),
    }
}

// Reads the length and the body of a Query.
#[tactic(auto, using(crate::proofs::ClientLaws::length_laws))]
fn query<S: Source>(source: &mut S, at: u64, text: &mut Vec<u8>) -> Result<Coming, Unread>
    ensures next { IfOk result (λ coming. OfKnown (QueryIs at coming text.new.items) (S.left source.old) (S.left source.new)) }
    ensures sound { result ≡ Ok Coming.Query → IsQueryText text.new.items }
    ensures later { S.faults source.old ≤ S.faults source.new }
    ensures failed { result ≡ Err Unread.Failed → Rose (S.faults source.old) (S.faults source.new) }
    ensures rose { S.faults source.old < S.faults source.new → result ≡ Err Unread.Failed }
{
    match read_length(source) {
        Ok(Some(len)) => {
            if len < QUERY_LENGTH_MIN || len > QUERY_LENGTH_MAX {
                return Ok(Coming::Fault(WireFault::BadLength { at }));
            }
            body(source, at, len as usize - 4, text)
        }
        Ok(None) => Ok(Coming::Fault(WireFault::Truncated { at })),
        Err(Failed) => Err(Unread::Failed),
    }
}

// Reads four bytes as a length; none where the source ends before.
#[tactic(auto, using(crate::proofs::ClientLaws::length_laws))]
fn read_length<S: Source>(source: &mut S) -> Result<Option<u32>, Failed>
    ensures told { IfOk result (λ told. OfKnown (HasLength told) (S.left source.old) (S.left source.new)) }
    ensures cause { HasCause (S.faults source.old) (S.faults source.new) result }
{
    let mut head = [0u8; 4];
    let n = read_full(source, &mut head)?;
    if n < 4 {
        return Ok(None);
    }
    Ok(Some(u32::from_be_bytes(head)))
}

// Reads a Query's body of so many bytes, and leaves its text in `text`.
#[tactic(auto, using(crate::proofs::ClientLaws::body_laws))]
fn body<S: Source>(
    source: &mut S,
    at: u64,
    size: usize,
    text: &mut Vec<u8>,
) -> Result<Coming, Unread>
    requires some { 1 ≤ size }
    requires few { size ≤ LINE_BYTES_MAX + 1 }
    ensures next { IfOk result (λ coming. OfKnown (BodyIs at size coming text.new.items) (S.left source.old) (S.left source.new)) }
    ensures sound { result ≡ Ok Coming.Query → IsQueryText text.new.items }
    ensures later { S.faults source.old ≤ S.faults source.new }
    ensures failed { result ≡ Err Unread.Failed → Rose (S.faults source.old) (S.faults source.new) }
    ensures rose { S.faults source.old < S.faults source.new → result ≡ Err Unread.Failed }
{
    let n = match fill(source, size, text) {
        Ok(n) => n,
        Err(unread) => return Err(unread),
    };
    if n < size {
        return Ok(Coming::Fault(WireFault::Truncated { at }));
    }
    if !is_body(text.as_slice()) {
        return Ok(Coming::Fault(WireFault::BadText { at }));
    }
    text.truncate(size - 1);
    Ok(Coming::Query)
}

// Reads so many bytes into `text`, and says how many there were; what is behind them is zero.
#[tactic(auto, using(crate::proofs::ClientLaws::fill_laws))]
fn fill<S: Source>(source: &mut S, size: usize, text: &mut Vec<u8>) -> Result<usize, Unread>
    ensures size { OnOk result (length text.new.items ≡ size) }
    ensures within { IfOk result (λ n. n ≤ size) }
    ensures bytes { IfOk result (λ n. Consumes (S.left source.old) (S.left source.new) (take n text.new.items)) }
    ensures ended { IfOk result (λ n. n < size → IsAtEnd (S.left source.new)) }
    ensures later { S.faults source.old ≤ S.faults source.new }
    ensures failed { result ≡ Err Unread.Failed → Rose (S.faults source.old) (S.faults source.new) }
    ensures rose { S.faults source.old < S.faults source.new → result ≡ Err Unread.Failed }
{
    text.clear();
    let Ok(()) = text.resize(size, 0) else {
        return Err(Unread::Memory);
    };
    match read_full(source, text.as_mut_slice()) {
        Ok(n) => Ok(n),
        Err(Failed) => Err(Unread::Failed),
    }
}

// Whether a Query may have this body.
fn is_body(body: &[u8]) -> bool
    ensures { cond result (IsBody body.now) (IsNoBody body.now) }
{
    match body.split_last() {
        Some((0, text)) => memchr(0, text).is_none() && str::from_utf8(text).is_ok(),
        _ => false,
    }
}

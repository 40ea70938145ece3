//! What comes for one seat: the bytes of its clients, and their ends.
ghost use Rattle.std.specs.Prelude.{◌≡◌, ◌+◌, ◌≤◌, ◌∷◌, ◌++◌, [], drop, false, length, map, true, IfOk, None, OnErr, OnOk, Some};
ghost use Rattle.pgn_base.specs.declared.limits.TheConstants.{LINE_BYTES_MAX};
ghost use Rattle.pgn_outlet.specs.Passes.{IsPassOf, knows};
ghost use Rattle.pgn_outlet.specs.Rule.{MayPush};
ghost use Rattle.pgn_frames.specs.Callers.{Answers, HasEnded, IsUnfinished, Takes, TakesBytes, TakesFirst, TakesFirstBytes, Waits, stand_of, with_put};
ghost use Rattle.pgn_frames.specs.Frames.{signs_in};

use crate::Caller;
use crate::message::{BODY_AT, Front, asked_at, front_of, parting_inside};
use pgn_base::SessionNo;
use pgn_messages::{Ask, Parting};
use pgn_outlet::{Came, Outlet};
use pgn_statements::read_request;
use std::alloc::{AllocError, Global};
use std::mem;
use std::sync::Wait;

// A seat's inbox, and the seat's number.
#[derive(Drop)]
pub(crate) struct SeatInbox<'a> {
    pub(crate) outlet: &'a Outlet<Option<Ask>>,
    pub(crate) seat: SessionNo,
}

// Takes what a frame of a seat carries: bytes of its client, or, where there are none, the client's end.
pub(crate) fn take_signs<R: Wait>(
    rt: &R,
    alloc: Global,
    inbox: &SeatInbox,
    caller: &mut Caller,
    bytes: &[u8],
) -> Result<(), AllocError>
    requires own { IsPassOf inbox.now.outlet.now caller.old.asks }
    requires may { MayPush (knows caller.old.asks) inbox.now.seat }
    requires waits { Waits (stand_of caller.old) }
    ensures own { IsPassOf inbox.now.outlet.now caller.new.asks }
    ensures takes { OnOk result (Takes inbox.now.seat caller.old caller.new (signs_in bytes.now)) }
    ensures first { OnErr result (TakesFirst inbox.now.seat caller.old caller.new
        (signs_in bytes.now)) }
{
    if bytes.is_empty() {
        return take_end(rt, alloc, inbox, caller);
    }
    if caller.left {
        return Ok(());
    }
    if caller.begun.is_empty() {
        return take_bytes(rt, alloc, inbox, caller, bytes);
    }
    take_behind(rt, alloc, inbox, caller, bytes)
}

// The client of a seat ends. One that has left is passed over so far.
fn take_end<R: Wait>(
    rt: &R,
    alloc: Global,
    inbox: &SeatInbox,
    caller: &mut Caller,
) -> Result<(), AllocError>
    requires own { IsPassOf inbox.now.outlet.now caller.old.asks }
    requires may { MayPush (knows caller.old.asks) inbox.now.seat }
    requires waits { Waits (stand_of caller.old) }
    ensures own { IsPassOf inbox.now.outlet.now caller.new.asks }
    ensures takes { OnOk result (Takes inbox.now.seat caller.old caller.new (None ∷ [])) }
    ensures first { OnErr result (TakesFirst inbox.now.seat caller.old caller.new (None ∷ [])) }
{
    let begun = mem::replace(&mut caller.begun, Vec::new(alloc));
    let parting = parting_inside(&begun);
    drop(begun);
    if caller.left {
        caller.left = false;
        return Ok(());
    }
    part(rt, inbox, caller, parting)
}

// Takes bytes behind those of a message that has begun.
fn take_behind<R: Wait>(
    rt: &R,
    alloc: Global,
    inbox: &SeatInbox,
    caller: &mut Caller,
    bytes: &[u8],
) -> Result<(), AllocError>
    requires own { IsPassOf inbox.now.outlet.now caller.old.asks }
    requires may { MayPush (knows caller.old.asks) inbox.now.seat }
    requires here { caller.old.left ≡ false }
    ensures own { IsPassOf inbox.now.outlet.now caller.new.asks }
    ensures takes { OnOk result (Takes inbox.now.seat caller.old caller.new (map Some bytes.now)) }
    ensures first { OnErr result (TakesFirst inbox.now.seat caller.old caller.new
        (map Some bytes.now)) }
{
    let mut begun = mem::replace(&mut caller.begun, Vec::new(alloc));
    match take_grown(rt, alloc, inbox, caller, &mut begun, bytes) {
        Ok(0) => {
            caller.begun = begun;
            Ok(())
        }
        Ok(n) => {
            let kept = caller.begun.extend_from_slice(&begun[n..]);
            drop(begun);
            kept
        }
        Err(AllocError) => {
            drop(begun);
            Err(AllocError)
        }
    }
}

// Puts bytes behind those of a message that has begun, takes what is whole of them all, and answers how many bytes that is.
fn take_grown<R: Wait>(
    rt: &R,
    alloc: Global,
    inbox: &SeatInbox,
    caller: &mut Caller,
    begun: &mut Vec<u8>,
    bytes: &[u8],
) -> Result<usize, AllocError>
    requires own { IsPassOf inbox.now.outlet.now caller.old.asks }
    requires may { MayPush (knows caller.old.asks) inbox.now.seat }
    requires here { caller.old.left ≡ false }
    ensures own { IsPassOf inbox.now.outlet.now caller.new.asks }
    ensures grown { OnOk result (begun.new.items ≡ begun.old.items ++ bytes.now) }
    ensures within { IfOk result (λ n. n ≤ length begun.new.items) }
    ensures takes { IfOk result (λ n. TakesBytes inbox.now.seat caller.old caller.new
        (begun.old.items ++ bytes.now) n) }
    ensures unfinished { IfOk result (λ n. IsUnfinished (drop n (begun.old.items ++ bytes.now))) }
    ensures first { OnErr result (TakesFirstBytes inbox.now.seat caller.old caller.new
        (begun.old.items ++ bytes.now)) }
    ensures begun { caller.new.begun.items ≡ caller.old.begun.items }
{
    if begun.extend_from_slice(bytes).is_err() {
        return Err(AllocError);
    }
    take_whole(rt, alloc, inbox, caller, begun.as_slice())
}

// Takes bytes where no message has begun: what is whole right out of them.
fn take_bytes<R: Wait>(
    rt: &R,
    alloc: Global,
    inbox: &SeatInbox,
    caller: &mut Caller,
    bytes: &[u8],
) -> Result<(), AllocError>
    requires own { IsPassOf inbox.now.outlet.now caller.old.asks }
    requires may { MayPush (knows caller.old.asks) inbox.now.seat }
    requires here { caller.old.left ≡ false }
    requires none { caller.old.begun.items ≡ [] }
    ensures own { IsPassOf inbox.now.outlet.now caller.new.asks }
    ensures takes { OnOk result (Takes inbox.now.seat caller.old caller.new (map Some bytes.now)) }
    ensures first { OnErr result (TakesFirst inbox.now.seat caller.old caller.new
        (map Some bytes.now)) }
{
    match take_whole(rt, alloc, inbox, caller, bytes) {
        Ok(n) => caller.begun.extend_from_slice(&bytes[n..]),
        Err(AllocError) => Err(AllocError),
    }
}

// Takes the whole messages at the front of these bytes, and answers how many bytes they have. Where the client leaves, that is all.
fn take_whole<R: Wait>(
    rt: &R,
    alloc: Global,
    inbox: &SeatInbox,
    caller: &mut Caller,
    bytes: &[u8],
) -> Result<usize, AllocError>
    requires own { IsPassOf inbox.now.outlet.now caller.old.asks }
    requires may { MayPush (knows caller.old.asks) inbox.now.seat }
    requires here { caller.old.left ≡ false }
    ensures own { IsPassOf inbox.now.outlet.now caller.new.asks }
    ensures within { IfOk result (λ n. n ≤ length bytes.now) }
    ensures takes { IfOk result (λ n. TakesBytes inbox.now.seat caller.old caller.new bytes.now n) }
    ensures unfinished { IfOk result (λ n. IsUnfinished (drop n bytes.now)) }
    ensures first { OnErr result (TakesFirstBytes inbox.now.seat caller.old caller.new bytes.now) }
    ensures begun { caller.new.begun.items ≡ caller.old.begun.items }
{
    let mut at = 0;
    'messages: while !caller.left {
        match take_message(rt, alloc, inbox, caller, &bytes[at..]) {
            Ok(0) => return Ok(at),
            Ok(n) => at += n,
            Err(AllocError) => return Err(AllocError),
        }
    }
    Ok(at)
}

// Takes the first message of these bytes, and answers how many bytes it has; none where it is not whole. Where the client leaves by it,
// what stands behind it is passed over with it.
fn take_message<R: Wait>(
    rt: &R,
    alloc: Global,
    inbox: &SeatInbox,
    caller: &mut Caller,
    bytes: &[u8],
) -> Result<usize, AllocError>
    requires own { IsPassOf inbox.now.outlet.now caller.old.asks }
    requires may { MayPush (knows caller.old.asks) inbox.now.seat }
    requires here { caller.old.left ≡ false }
    ensures own { IsPassOf inbox.now.outlet.now caller.new.asks }
    ensures within { IfOk result (λ n. n ≤ length bytes.now) }
    ensures takes { IfOk result (λ n. TakesBytes inbox.now.seat caller.old caller.new bytes.now n) }
    ensures waits { result ≡ Ok 0 → (caller.new.left ≡ false) × IsUnfinished bytes.now }
    ensures passed { IfOk result (λ n. caller.new.left ≡ true → n ≡ length bytes.now) }
    ensures refused { OnErr result (knows caller.new.asks ≡ knows caller.old.asks) }
    ensures begun { caller.new.begun.items ≡ caller.old.begun.items }
{
    match front_of(bytes) {
        Front::Unfinished => Ok(0),
        Front::Query(end) => match take_query(rt, alloc, inbox, caller, &bytes[BODY_AT..end]) {
            Ok(true) => Ok(end),
            Ok(false) => leave(rt, inbox, caller, bytes, Parting::Spent),
            Err(AllocError) => Err(AllocError),
        },
        Front::Parts(parting) => leave(rt, inbox, caller, bytes, parting),
    }
}

// Reads what a Query with this body asks, and puts it, unless there are too many lines with it, or too many that notify: then it answers
// false.
fn take_query<R: Wait>(
    rt: &R,
    alloc: Global,
    inbox: &SeatInbox,
    caller: &mut Caller,
    body: &[u8],
) -> Result<bool, AllocError>
    requires own { IsPassOf inbox.now.outlet.now caller.old.asks }
    requires may { MayPush (knows caller.old.asks) inbox.now.seat }
    requires short { length body.now ≤ LINE_BYTES_MAX + 1 }
    ensures own { IsPassOf inbox.now.outlet.now caller.new.asks }
    ensures answers { IfOk result (λ put. Answers put inbox.now.seat caller.old caller.new
        body.now) }
    ensures refused { OnErr result (knows caller.new.asks ≡ knows caller.old.asks) }
    ensures begun { caller.new.begun.items ≡ caller.old.begun.items }
    ensures left { caller.new.left ≡ caller.old.left }
{
    let request = read_request(alloc, body)?;
    let ask = asked_at(caller.counts.next_line(), request);
    if !caller.counts.count(&ask) {
        drop(ask);
        return Ok(false);
    }
    match put(rt, inbox, caller, ask) {
        Ok(()) => Ok(true),
        Err(AllocError) => Err(AllocError),
    }
}

// A seat's client leaves by a message at the front of these bytes, with all of them.
fn leave<R: Wait>(
    rt: &R,
    inbox: &SeatInbox,
    caller: &mut Caller,
    bytes: &[u8],
    parting: Parting,
) -> Result<usize, AllocError>
    requires own { IsPassOf inbox.now.outlet.now caller.old.asks }
    requires may { MayPush (knows caller.old.asks) inbox.now.seat }
    ensures own { IsPassOf inbox.now.outlet.now caller.new.asks }
    ensures all { IfOk result (λ n. n ≡ length bytes.now) }
    ensures ended { OnOk result (HasEnded inbox.now.seat caller.old caller.new parting) }
    ensures left { OnOk result (caller.new.left ≡ true) }
    ensures refused { OnErr result (knows caller.new.asks ≡ knows caller.old.asks) }
    ensures begun { caller.new.begun.items ≡ caller.old.begun.items }
{
    match part(rt, inbox, caller, parting) {
        Ok(()) => {
            caller.left = true;
            Ok(bytes.len())
        }
        Err(AllocError) => Err(AllocError),
    }
}

// Puts the end of a seat's client, and goes on to the next.
fn part<R: Wait>(
    rt: &R,
    inbox: &SeatInbox,
    caller: &mut Caller,
    parting: Parting,
) -> Result<(), AllocError>
    requires own { IsPassOf inbox.now.outlet.now caller.old.asks }
    requires may { MayPush (knows caller.old.asks) inbox.now.seat }
    ensures own { IsPassOf inbox.now.outlet.now caller.new.asks }
    ensures ended { OnOk result (HasEnded inbox.now.seat caller.old caller.new parting) }
    ensures refused { OnErr result (knows caller.new.asks ≡ knows caller.old.asks) }
    ensures begun { caller.new.begun.items ≡ caller.old.begun.items }
    ensures left { caller.new.left ≡ caller.old.left }
{
    let Some(line) = caller.counts.next_client() else {
        return Err(AllocError);
    };
    put(rt, inbox, caller, Ask::End { line, parting })
}

// Puts this into a seat's inbox.
fn put<R: Wait>(rt: &R, inbox: &SeatInbox, caller: &mut Caller, ask: Ask) -> Result<(), AllocError>
    requires own { IsPassOf inbox.now.outlet.now caller.old.asks }
    requires may { MayPush (knows caller.old.asks) inbox.now.seat }
    ensures own { IsPassOf inbox.now.outlet.now caller.new.asks }
    ensures put { OnOk result (knows caller.new.asks
        ≡ with_put inbox.now.seat (knows caller.old.asks) (Some ask ∷ [])) }
    ensures refused { OnErr result (knows caller.new.asks ≡ knows caller.old.asks) }
    ensures counts { caller.new.counts ≡ caller.old.counts }
    ensures begun { caller.new.begun.items ≡ caller.old.begun.items }
    ensures left { caller.new.left ≡ caller.old.left }
{
    inbox.outlet.push(
        rt,
        &mut caller.asks,
        Came {
            session: inbox.seat,
            what: Some(ask),
        },
    )
}

ghost use Rattle.std.specs.Prelude.{◌≡◌, ℕ, ◌+◌, ◌-◌, ◌<◌, ◌≤◌, ◌⊎◌, length, List, Option, IfOk, OnErr, OnOk};
ghost use Rattle.pgn_base.specs.Outside.{Rose};
ghost use Rattle.pgn_outlet.specs.Passes.{IsPassOf, knows};
ghost use Rattle.pgn_outlet.specs.Rule.{MayPush};
ghost use Rattle.pgn_frames.specs.Callers.{Takes, TakesFirst};
ghost use Rattle.pgn_frames.specs.Frames.{IsSeat, signs_in};
ghost use Rattle.pgn_frames.specs.Reading.{AreEnded, CallsOn, DoesAt, EachSeat, HasReadAll, HasReadFirst, HasReadSome, IsEnded, IsKept, MayCall, OfMost, OwnsInbox, Reads, ReadsTo, TurnsInto};

use crate::taking::{SeatInbox, take_signs};
use crate::{Arrival, Caller, FrameFault, NoFrame, next_frame};
use pgn_base::{SessionNo, Source};
use pgn_hub::Hub;
use pgn_messages::Ask;
use pgn_outlet::{Came, Outlet};
use std::alloc::{AllocError, Global};
use std::sync::Wait;

// The seats of a service, and what their reader runs on: what is asked of them goes through their inboxes, and their bells hang in the hub.
#[derive(Drop)]
struct Seats<'a, H, R> {
    rt: &'a R,
    alloc: Global,
    hub: &'a H,
    inboxes: &'a [Outlet<Option<Ask>>],
}

/// Reads frames until there are no more, and puts what each seat is asked by them into its inbox, each query once it is whole, and behind
/// all of it that nothing more will be asked. Each frame rings its seat's bell. Answers the fault by which the frames end, if one does.
/// Where memory does not suffice, or others have called the run off, it is called off, and the seats are not told that it ends.
pub fn read_frames<H: Hub, R: Wait, S: Source>(
    rt: &R,
    alloc: Global,
    hub: &H,
    inboxes: &[Outlet<Option<Ask>>],
    callers: &mut [Caller],
    source: &mut S,
) -> Result<Option<FrameFault>, NoFrame>
    requires call { (most : ℕ) × MayCall most inboxes.now callers.old }
    requires seats { length (H.shape hub.now).seats ≡ length callers.old }
    ensures done { OfMost inboxes.now callers.old
        (λ most. IfOk result
        (λ fault. HasReadAll most (S.left source.old) inboxes.now callers.new fault)) }
    ensures first { OfMost inboxes.now callers.old
        (λ most. result ≡ Err NoFrame.Failed
        → HasReadFirst most (S.left source.old) inboxes.now callers.new) }
    ensures some { OfMost inboxes.now callers.old
        (λ most. result ≡ Err NoFrame.Memory
        → HasReadSome most (S.left source.old) inboxes.now callers.new) }
    ensures later { S.faults source.old ≤ S.faults source.new }
    ensures failed { result ≡ Err NoFrame.Failed
        → Rose (S.faults source.old) (S.faults source.new) }
    // Want of memory may follow a failure, where the seats are to be told.
    ensures rose { S.faults source.old < S.faults source.new
        → (result ≡ Err NoFrame.Failed) ⊎ (result ≡ Err NoFrame.Memory) }
{
    let seats = Seats {
        rt,
        alloc,
        hub,
        inboxes,
    };
    let mut body = Vec::new(alloc);
    let read = read_on(&seats, callers, source, &mut body);
    drop(body);
    if let Err(NoFrame::Memory) = read {
        hub.call_off();
        return read;
    }
    if tell_end(&seats, callers).is_err() {
        hub.call_off();
        return Err(NoFrame::Memory);
    }
    read
}

// Reads frame after frame.
fn read_on<H: Hub, R: Wait, S: Source>(
    seats: &Seats<'_, H, R>,
    callers: &mut [Caller],
    source: &mut S,
    body: &mut Vec<u8>,
) -> Result<Option<FrameFault>, NoFrame>
    requires each { length seats.now.inboxes.now ≡ length callers.old }
    requires few { length callers.old ≤ 256 }
    requires on { EachSeat CallsOn seats.now.inboxes.now callers.old }
    requires seats { length (H.shape seats.now.hub.now).seats ≡ length callers.old }
    ensures size { length callers.new ≡ length callers.old }
    ensures on { (result ≡ Err NoFrame.Memory → ⊥)
        → EachSeat CallsOn seats.now.inboxes.now callers.new }
    ensures reads { (most : ℕ) (bytes : Option (List ℕ))
        → Reads most 0 bytes (S.left source.old) seats.now.inboxes.now callers.old
        → ReadsTo result most bytes seats.now.inboxes.now callers.new }
    ensures later { S.faults source.old ≤ S.faults source.new }
    ensures failed { result ≡ Err NoFrame.Failed
        → Rose (S.faults source.old) (S.faults source.new) }
    ensures rose { S.faults source.old < S.faults source.new → result ≡ Err NoFrame.Failed }
{
    let mut at = 0;
    for _ in seats.rt.forever() {
        match read_one(seats, callers, source, &mut at, body) {
            Ok(None) => {}
            Ok(Some(fault)) => return Ok(fault),
            Err(none) => return Err(none),
        }
    }
    unreachable!()
}

// Reads the next frame, which begins at this offset. Where there is none, answers the fault that there is, if it is one.
fn read_one<H: Hub, R: Wait, S: Source>(
    seats: &Seats<'_, H, R>,
    callers: &mut [Caller],
    source: &mut S,
    at: &mut u64,
    body: &mut Vec<u8>,
) -> Result<Option<Option<FrameFault>>, NoFrame>
    requires each { length seats.now.inboxes.now ≡ length callers.old }
    requires few { length callers.old ≤ 256 }
    requires on { EachSeat CallsOn seats.now.inboxes.now callers.old }
    requires seats { length (H.shape seats.now.hub.now).seats ≡ length callers.old }
    ensures size { length callers.new ≡ length callers.old }
    ensures on { (result ≡ Err NoFrame.Memory → ⊥)
        → EachSeat CallsOn seats.now.inboxes.now callers.new }
    ensures turned { (most : ℕ) (bytes : Option (List ℕ))
        → Reads most at.old bytes (S.left source.old) seats.now.inboxes.now callers.old
        → TurnsInto result most at.new bytes (S.left source.new) seats.now.inboxes.now callers.new }
    ensures later { S.faults source.old ≤ S.faults source.new }
    ensures failed { result ≡ Err NoFrame.Failed
        → Rose (S.faults source.old) (S.faults source.new) }
    ensures rose { S.faults source.old < S.faults source.new → result ≡ Err NoFrame.Failed }
{
    match next_frame(source, callers.len() as u16, *at, body) {
        Ok(Arrival::Frame(seat)) => match take_frame(seats, callers, seat, at, body.as_slice()) {
            Ok(()) => Ok(None),
            Err(AllocError) => Err(NoFrame::Memory),
        },
        Ok(Arrival::End) => Ok(Some(None)),
        Ok(Arrival::Fault(fault)) => Ok(Some(Some(fault))),
        Err(none) => Err(none),
    }
}

// Takes a frame of this seat with these bytes, rings the seat's bell, and goes on to the offset behind the frame.
fn take_frame<H: Hub, R: Wait>(
    seats: &Seats<'_, H, R>,
    callers: &mut [Caller],
    seat: u16,
    at: &mut u64,
    bytes: &[u8],
) -> Result<(), AllocError>
    requires each { length seats.now.inboxes.now ≡ length callers.old }
    requires few { length callers.old ≤ 256 }
    requires on { EachSeat CallsOn seats.now.inboxes.now callers.old }
    requires seats { length (H.shape seats.now.hub.now).seats ≡ length callers.old }
    requires seat { IsSeat (length callers.old) seat }
    ensures at { OnOk result (at.new ≡ at.old + (4 + length bytes.now)) }
    ensures own { EachSeat OwnsInbox seats.now.inboxes.now callers.new }
    ensures on { OnOk result (EachSeat CallsOn seats.now.inboxes.now callers.new) }
    ensures takes { OnOk result (DoesAt (λ old new. Takes seat old new (signs_in bytes.now))
        (seat - 1) callers.old callers.new) }
    ensures first { OnErr result (DoesAt (λ old new. TakesFirst seat old new (signs_in bytes.now))
        (seat - 1) callers.old callers.new) }
{
    take_at(seats, callers, seat, bytes)?;
    seats.hub.ring(u32::from(seat) - 1);
    let Some(next) = at.checked_add(4 + bytes.len() as u64) else {
        return Err(AllocError);
    };
    if seats.hub.is_called_off() {
        return Err(AllocError);
    }
    *at = next;
    Ok(())
}

// Takes a frame of this seat.
fn take_at<H, R: Wait>(
    seats: &Seats<'_, H, R>,
    callers: &mut [Caller],
    seat: u16,
    bytes: &[u8],
) -> Result<(), AllocError>
    requires each { length seats.now.inboxes.now ≡ length callers.old }
    requires few { length callers.old ≤ 256 }
    requires on { EachSeat CallsOn seats.now.inboxes.now callers.old }
    requires seat { IsSeat (length callers.old) seat }
    ensures own { EachSeat OwnsInbox seats.now.inboxes.now callers.new }
    ensures on { OnOk result (EachSeat CallsOn seats.now.inboxes.now callers.new) }
    ensures takes { OnOk result (DoesAt (λ old new. Takes seat old new (signs_in bytes.now))
        (seat - 1) callers.old callers.new) }
    ensures first { OnErr result (DoesAt (λ old new. TakesFirst seat old new (signs_in bytes.now))
        (seat - 1) callers.old callers.new) }
{
    let inboxes = seats.inboxes;
    let k = usize::from(seat) - 1;
    let number = SessionNo::new(u32::from(seat));
    let inbox = SeatInbox {
        outlet: &inboxes[k],
        seat: number,
    };
    take_signs(seats.rt, seats.alloc, &inbox, &mut callers[k], bytes)
}

// Tells each seat that nothing more will be asked.
fn tell_end<H: Hub, R: Wait>(
    seats: &Seats<'_, H, R>,
    callers: &mut [Caller],
) -> Result<(), AllocError>
    requires each { length seats.now.inboxes.now ≡ length callers.old }
    requires few { length callers.old ≤ 256 }
    requires on { EachSeat CallsOn seats.now.inboxes.now callers.old }
    requires seats { length (H.shape seats.now.hub.now).seats ≡ length callers.old }
    ensures told { OnOk result (AreEnded (length callers.old) seats.now.inboxes.now callers.old
        callers.new) }
    ensures first { OnErr result ((n : ℕ) × (n ≤ length callers.old)
        × AreEnded n seats.now.inboxes.now callers.old callers.new) }
{
    for k in 0..callers.len() {
        if tell_one(
            seats.rt,
            &seats.inboxes[k],
            SessionNo::new(k as u32 + 1),
            &mut callers[k],
        )
        .is_err()
        {
            return Err(AllocError);
        }
        seats.hub.ring(k as u32);
    }
    Ok(())
}

// Tells one of them.
fn tell_one<R: Wait>(
    rt: &R,
    inbox: &Outlet<Option<Ask>>,
    seat: SessionNo,
    caller: &mut Caller,
) -> Result<(), AllocError>
    requires own { IsPassOf inbox.now caller.old.asks }
    requires may { MayPush (knows caller.old.asks) seat }
    ensures ended { OnOk result (IsEnded seat inbox.now caller.old caller.new) }
    ensures kept { OnErr result (IsKept inbox.now caller.old caller.new) }
{
    inbox.push(
        rt,
        &mut caller.asks,
        Came {
            session: seat,
            what: None,
        },
    )
}

ghost use Rattle.std.specs.Prelude.{◌≡◌, ◌<◌, ◌+◌, map, take, length, OnOk, All};
ghost use Rattle.pgn_threads.specs.Parts.{HasReadAll};
ghost use Rattle.pgn_session.specs.Runs.{IsOver, script_of, shown_of};
ghost use Rattle.pgn_threads.specs.Drain.{passes_of, signals_of, heard_up, heard_down, EachMayEndWithRead, HasReadOwn, MayReadAt};

use pgn_hub::{Hub, PassView};
use pgn_session::Session;
use std::alloc::{AllocError, Global};

/// Lets sessions that are over hear from each other what each knows of wakes, and then lets each that still listens read once more: it
/// then has read up to where every one of them knows wakes to be set. The error is that memory did not suffice.
pub fn drain<P: PassView + Drop, H: Hub<Pass = P>>(
    alloc: Global,
    hub: &H,
    sessions: &mut [Session<P>],
) -> Result<(), AllocError>
    requires over { All (IsOver (H.is_pass hub.now) (H.shape hub.now) P.known) sessions.old }
    ensures over { OnOk result (All (IsOver (H.is_pass hub.now) (H.shape hub.now) P.known) sessions.new) }
    ensures scripts { OnOk result (map script_of sessions.new ≡ map script_of sessions.old) }
    ensures read { OnOk result (All (HasReadAll (passes_of P.known sessions.new)) (passes_of P.known sessions.new)) }
    ensures shown { OnOk result (EachMayEndWithRead (map shown_of sessions.old) (map shown_of sessions.new)) }
{
    let count = sessions.len();
    for i in 1..count {
        hear_up(hub, sessions, i);
    }
    for k in 1..count {
        hear_down(hub, sessions, count - k);
    }
    for i in 0..count {
        read_last(alloc, hub, sessions, i)?;
    }
    Ok(())
}

// The session at this place hears from the one before it.
fn hear_up<P: PassView + Drop, H: Hub<Pass = P>>(hub: &H, sessions: &mut [Session<P>], i: usize)
    requires over { All (IsOver (H.is_pass hub.now) (H.shape hub.now) P.known) sessions.old }
    requires place { (0 < i) × (i < length sessions.old) }
    ensures over { All (IsOver (H.is_pass hub.now) (H.shape hub.now) P.known) sessions.new }
    ensures scripts { map script_of sessions.new ≡ map script_of sessions.old }
    ensures signals { signals_of P.known sessions.new ≡ heard_up (signals_of P.known sessions.old) i }
    ensures shown { map shown_of sessions.new ≡ map shown_of sessions.old }
{
    let (front, back) = sessions.split_at_mut(i);
    front[i - 1].meet(hub, &mut back[0]);
}

// The session before this place hears from the one at it.
fn hear_down<P: PassView + Drop, H: Hub<Pass = P>>(hub: &H, sessions: &mut [Session<P>], i: usize)
    requires over { All (IsOver (H.is_pass hub.now) (H.shape hub.now) P.known) sessions.old }
    requires place { (0 < i) × (i < length sessions.old) }
    ensures over { All (IsOver (H.is_pass hub.now) (H.shape hub.now) P.known) sessions.new }
    ensures scripts { map script_of sessions.new ≡ map script_of sessions.old }
    ensures signals { signals_of P.known sessions.new ≡ heard_down (signals_of P.known sessions.old) i }
    ensures shown { map shown_of sessions.new ≡ map shown_of sessions.old }
{
    let (front, back) = sessions.split_at_mut(i);
    let into = &mut front[i - 1];
    back[0].meet(hub, into);
}

// The session at this place reads once more, if it still listens.
fn read_last<P: PassView + Drop, H: Hub<Pass = P>>(
    alloc: Global,
    hub: &H,
    sessions: &mut [Session<P>],
    i: usize,
) -> Result<(), AllocError>
    requires over { All (IsOver (H.is_pass hub.now) (H.shape hub.now) P.known) sessions.old }
    requires place { i < length sessions.old }
    requires before { All HasReadOwn (take i (passes_of P.known sessions.old)) }
    ensures over { OnOk result (All (IsOver (H.is_pass hub.now) (H.shape hub.now) P.known) sessions.new) }
    ensures scripts { OnOk result (map script_of sessions.new ≡ map script_of sessions.old) }
    ensures signals { OnOk result (signals_of P.known sessions.new ≡ signals_of P.known sessions.old) }
    ensures read { OnOk result (All HasReadOwn (take (i + 1) (passes_of P.known sessions.new))) }
    ensures shown { OnOk result (MayReadAt i (map shown_of sessions.old) (map shown_of sessions.new)) }
{
    sessions[i].finish_read(alloc, hub)?;
    Ok(())
}

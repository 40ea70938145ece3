ghost use Rattle.std.specs.Prelude.{◌≡◌, ◌++◌, true, [], ◌∷◌, length, map, Ok, OnOk, All};
ghost use Rattle.std.specs.List.{range_with_len};
ghost use Rattle.pgn_hub.specs.Gathered.{Gathered};
ghost use Rattle.pgn_hub.specs.Passes.{IsWithin};
ghost use Rattle.pgn_outlet.specs.Passes.{IsPassOf, knows};
ghost use Rattle.pgn_service.specs.Closing.{AreOver, HasGathered, HasTakenFirst, HasTakenRest, HaveTakenFirst, MayClose, MayCloseAll};

use crate::seating::{Seating, destroy_all};
use pgn_frames::Caller;
use pgn_hub::{Hub, PassView};
use pgn_messages::Ask;
use pgn_outlet::OutletPass;
use pgn_seats::{Desk, Inbox};
use std::alloc::{AllocError, Global};
use std::sync::Wait;
use std::vec::IntoIter;

// Closes what the seats of a service have, once its arms are done, and gathers the passes of its desks, where all have served: what they
// did is then a legal run. The error is that memory did not suffice, for the desks or here.
pub(crate) fn close<P: PassView + Drop, H: Hub<Pass = P> + Drop, R: Wait>(
    rt: &R,
    alloc: Global,
    hub: H,
    seating: Seating<P>,
    served: Result<(), AllocError>,
) -> Result<(), AllocError>
    requires close { MayCloseAll seating.inboxes.items seating.desks.items seating.callers.items }
    requires over { OnOk served
        (AreOver (H.is_pass hub) (H.shape hub) P.known seating.desks.items) }
    ensures took { HaveTakenFirst seating.desks.items seating.callers.items }
    ensures ran { OnOk result (served ≡ Ok tt) }
    ensures gathered { OnOk result (HasGathered P.known seating.desks.items) }
{
    let Seating {
        inboxes,
        desks,
        callers,
    } = seating;
    let mut passes = Vec::new(alloc);
    let mut desks = desks.into_iter();
    let mut callers = callers.into_iter();
    let left = leave_each(
        rt,
        inboxes.as_slice(),
        &mut desks,
        &mut callers,
        &mut passes,
    );
    drop(desks);
    drop(callers);
    destroy_all(inboxes);
    match left {
        Ok(()) => gather_where_served(hub, passes, served),
        Err(error) => {
            drop(passes);
            drop(hub);
            Err(error)
        }
    }
}

// Gathers the passes of a hub, where its desks have served.
fn gather_where_served<P: PassView + Drop, H: Hub<Pass = P> + Drop>(
    hub: H,
    passes: Vec<P>,
    served: Result<(), AllocError>,
) -> Result<(), AllocError>
    requires own { OnOk served (All (H.is_pass hub) passes.items) }
    requires all { OnOk served
        (map (λ pass. (P.known pass).session) passes.items ≡ range_with_len 1
        (length (H.shape hub).seats)) }
    ensures ran { OnOk result (served ≡ Ok tt) }
    ensures gathered { OnOk result ((count : _) × Gathered (map P.known passes.items) count) }
    ensures within { OnOk result (All (λ pass. IsWithin (P.known pass)) passes.items) }
{
    match served {
        Ok(()) => {
            are_within(&hub, passes.as_slice());
            drop(hub.gather(passes));
            Ok(())
        }
        Err(error) => {
            drop(passes);
            drop(hub);
            Err(error)
        }
    }
}

// What holds of each pass of a hub between calls.
fn are_within<P: PassView + Drop, H: Hub<Pass = P>>(hub: &H, passes: &[P])
    requires { All (H.is_pass hub.now) passes.now }
    ensures { All (λ pass. IsWithin (P.known pass)) passes.now }
{}

// Closes each inbox with the next desk and the next caller, which are lent, so that nothing with parts is dropped on the way, and keeps the
// passes of the desks' sessions.
fn leave_each<P: PassView + Drop, R: Wait>(
    rt: &R,
    inboxes: &[Inbox],
    desks: &mut IntoIter<Desk<P>, Global>,
    callers: &mut IntoIter<Caller, Global>,
    passes: &mut Vec<P>,
) -> Result<(), AllocError>
    requires close { MayCloseAll inboxes.now desks.old.rest.items callers.old.rest.items }
    requires none { passes.old.items ≡ [] }
    ensures took { HaveTakenFirst desks.old.rest.items callers.old.rest.items }
    ensures passes { OnOk result
        (passes.new.items ≡ map (λ desk. desk.session.pass) desks.old.rest.items) }
{
    let mut so_far = Ok(());
    for place in 0..inboxes.len() {
        let Some(desk) = desks.next() else {
            unreachable!();
        };
        let Some(caller) = callers.next() else {
            unreachable!();
        };
        let pass = leave(rt, &inboxes[place], desk, caller);
        so_far = keep(passes, pass, so_far);
    }
    so_far
}

// Closes the inbox of a desk and a caller, and gives the pass of the desk's session.
fn leave<P: PassView + Drop, R: Wait>(rt: &R, inbox: &Inbox, desk: Desk<P>, caller: Caller) -> P
    requires close { MayClose inbox.now desk caller }
    ensures took { HasTakenFirst (knows caller.asks) (knows desk.asks) }
    ensures pass { result ≡ desk.session.pass }
{
    let Desk { session, asks, .. } = desk;
    let Caller { asks: put, .. } = caller;
    close_inbox(rt, inbox, put, asks);
    let (pass, trace) = session.into_log();
    drop(trace);
    pass
}

// Keeps a pass, where memory suffices and did so far.
fn keep<P: Drop>(
    passes: &mut Vec<P>,
    pass: P,
    so_far: Result<(), AllocError>,
) -> Result<(), AllocError>
    ensures so_far { OnOk result (so_far ≡ Ok tt) }
    ensures kept { OnOk result (passes.new.items ≡ passes.old.items ++ pass ∷ []) }
{
    match passes.push(pass) {
        Ok(()) => so_far,
        Err(_) => Err(AllocError),
    }
}

// Closes an inbox and empties it: what its taker had taken before are the first of all that was put.
fn close_inbox<R: Wait>(
    rt: &R,
    inbox: &Inbox,
    put: OutletPass<Option<Ask>>,
    asks: OutletPass<Option<Ask>>,
)
    requires own { IsPassOf inbox.now put × IsPassOf inbox.now asks }
    requires takes { (knows asks).takes ≡ true }
    ensures { HasTakenFirst (knows put) (knows asks) }
{
    let mut pass = put;
    inbox.close(&mut pass, asks);
    take_rest(rt, inbox, &mut pass);
}

// Takes all that is left.
fn take_rest<R: Wait>(rt: &R, inbox: &Inbox, pass: &mut OutletPass<Option<Ask>>)
    requires own { IsPassOf inbox.now pass.old }
    requires takes { (knows pass.old).takes ≡ true }
    ensures { HasTakenRest (knows pass.old) (knows pass.new) }
{
    for _ in rt.forever() {
        match inbox.take(rt, pass) {
            Some(came) => drop(came),
            None => return,
        }
    }
    unreachable!()
}

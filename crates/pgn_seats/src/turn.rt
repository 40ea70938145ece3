ghost use Rattle.std.specs.Prelude.{◌≡◌, ◌-◌, ◌≤◌, Ok, Option, true, [], ◌∷◌, ◌++◌, IfNone, IfSome, OnOk, get_or, length};
ghost use Rattle.pgn_outlet.specs.declared.outlet.Outlet.{Outlet};
ghost use Rattle.pgn_outlet.specs.Passes.{IsPassOf, knows};
ghost use Rattle.pgn_outlet.specs.Rule.{MayPush};
ghost use Rattle.pgn_seats.specs.Serving.{HasPushedFor, HasServed, HasToldFirst, IsSeated, Serves, taken};
ghost use Rattle.pgn_seats.specs.Workers.{HasTurned};
ghost use Rattle.pgn_seats.specs.Working.{HasTried, MayDo};
ghost use Rattle.pgn_session.specs.Open.{IsSameClient};
ghost use Rattle.pgn_messages.specs.declared.asked.Ask.{Ask};

use crate::answering::answer;
use crate::discarding::discard;
use crate::hearing::listen;
use crate::lines::run_line;
use crate::resetting::reset;
use crate::settling::settle;
use crate::{Desk, Inbox, Service};
use pgn_base::SessionNo;
use pgn_hub::{Hub, PassView};
use pgn_messages::{Ask, Saying};
use pgn_outlet::{Came, OutletPass};
use pgn_session::Doing;
use pgn_workers::Turn;
use std::alloc::AllocError;
use std::sync::Wait;

// A turn of a desk: what is next in its inbox is done and told, or, where nothing is there, what its session hears. The error is that memory
// did not suffice, or that the run was called off: what was told are whole turns then.
pub(crate) fn take_turn<P: PassView + Drop, H: Hub<Pass = P>, R: Wait>(
    service: &Service<'_, H, R>,
    desk: &mut Desk<P>,
    tells: &mut OutletPass<Saying>,
) -> Result<Turn, AllocError>
    requires own { IsPassOf service.now.outbox.now tells.old }
    requires seated { IsSeated (H.is_pass service.now.hub.now) (H.shape service.now.hub.now) P.known
        service.now.inboxes.now desk.old (knows tells.old) }
    requires may { MayPush (knows tells.old) desk.old.session.section.no }
    ensures own { IsPassOf service.now.outbox.now tells.new }
    ensures same { IsSameClient desk.old.session desk.new.session }
    ensures alone { HasPushedFor desk.old.session.section.no (knows tells.old) (knows tells.new) }
    ensures seated { OnOk result (IsSeated (H.is_pass service.now.hub.now)
        (H.shape service.now.hub.now) P.known service.now.inboxes.now desk.new (knows tells.new)) }
    ensures over { result ≡ Ok Turn.Ended → HasServed (H.is_pass service.now.hub.now)
        (H.shape service.now.hub.now) P.known service.now.inboxes.now desk.new (knows tells.new) }
    ensures told { HasToldFirst (H.shape service.now.hub.now) service.now.inboxes.now desk.new
        (knows tells.new) }
{
    match desk.session.doing {
        Doing::Over => Ok(Turn::Ended),
        _ => serve_next(service, desk, tells),
    }
}

// The same for a desk that serves.
fn serve_next<P: PassView + Drop, H: Hub<Pass = P>, R: Wait>(
    service: &Service<'_, H, R>,
    desk: &mut Desk<P>,
    tells: &mut OutletPass<Saying>,
) -> Result<Turn, AllocError>
    requires own { IsPassOf service.now.outbox.now tells.old }
    requires serves { Serves (H.is_pass service.now.hub.now) (H.shape service.now.hub.now) P.known
        service.now.inboxes.now desk.old (knows tells.old) }
    requires may { MayPush (knows tells.old) desk.old.session.section.no }
    ensures own { IsPassOf service.now.outbox.now tells.new }
    ensures turned { HasTurned (H.is_pass service.now.hub.now) (H.shape service.now.hub.now) P.known
        service.now.inboxes.now desk.old desk.new (knows tells.old) (knows tells.new) result }
{
    match take_ask(
        service.rt,
        service.inboxes,
        desk.session.section.no,
        &mut desk.asks,
    ) {
        Some(Some(ask)) => {
            let served = serve(service, desk, &ask, tells);
            drop(ask);
            match served {
                Ok(()) => Ok(Turn::Did),
                Err(_) => Err(AllocError),
            }
        }
        Some(None) => match run_line(service, &mut desk.session) {
            Ok(()) => Ok(Turn::Ended),
            Err(_) => Err(AllocError),
        },
        None => listen(service, &mut desk.session, tells),
    }
}

// What is next in a seat's inbox. All that stands there is for that seat.
fn take_ask<R: Wait>(
    rt: &R,
    inboxes: &[Inbox],
    seat: SessionNo,
    asks: &mut OutletPass<Option<Ask>>,
) -> Option<Option<Ask>>
    requires within { seat ≤ length inboxes.now }
    requires own { (d : Outlet (Option Ask)) → IsPassOf (get_or inboxes.now (seat - 1) d) asks.old }
    requires takes { (knows asks.old).takes ≡ true }
    ensures own { (d : Outlet (Option Ask)) → IsPassOf (get_or inboxes.now (seat - 1) d) asks.new }
    ensures takes { (knows asks.new).takes ≡ true }
    ensures took { IfSome result (λ ask. taken seat (knows asks.new) ≡ taken seat (knows asks.old)
        ++ ask ∷ []) }
    ensures found_none { IfNone result (taken seat (knows asks.new) ≡ taken seat (knows asks.old)) }
{
    let inbox = &inboxes[seat.get() as usize - 1];
    let Came { session, what } = inbox.take(rt, asks)?;
    if session != seat {
        drop(what);
        return None;
    }
    Some(what)
}

// Does what was asked, and tells it.
fn serve<P: PassView + Drop, H: Hub<Pass = P>, R: Wait>(
    service: &Service<'_, H, R>,
    desk: &mut Desk<P>,
    ask: &Ask,
    tells: &mut OutletPass<Saying>,
) -> Result<(), AllocError>
    requires own { IsPassOf service.now.outbox.now tells.old }
    requires may { MayDo (H.is_pass service.now.hub.now) (H.shape service.now.hub.now) P.known
        desk.old (knows tells.old) }
    ensures own { IsPassOf service.now.outbox.now tells.new }
    ensures tried { HasTried (H.is_pass service.now.hub.now) (H.shape service.now.hub.now) P.known
        ask.now desk.old desk.new (knows tells.old) (knows tells.new) result }
{
    match ask {
        Ask::Query(query) => answer(service, desk, query, tells),
        Ask::Settle(settled) => settle(service, desk, settled, tells),
        Ask::Discard { line } => discard(service, desk, *line, tells),
        Ask::End { line, parting } => reset(service, desk, *line, *parting, tells),
    }
}

ghost use Rattle.pgn_outlet.specs.Passes.{IsPassOf, knows};
ghost use Rattle.pgn_seats.specs.Desks.{HaveServed, MayServe};

use crate::{Desk, Service, Tells};
use pgn_hub::{Hub, PassView};
use pgn_workers::run;
use std::alloc::AllocError;
use std::sync::Wait;
use std::thread::Threads;

/// Has desks serve their seats, side by side, until each has come to the end of its inbox: each on a thread of its own while threads can be
/// had, and in turns where not. What they tell they push into the outbox, each under its seat's number, and ring the bell of who takes it.
/// The error is that memory did not suffice, or that others have called the service off; then it is called off, and each desk has told
/// whole turns, and nothing else.
pub fn serve_seats<P: PassView + Send + Drop, H: Hub<Pass = P> + Sync, R: Threads + Wait + Sync>(
    service: &Service<'_, H, R>,
    desks: &mut [Desk<P>],
    tells: &mut Tells,
) -> Result<(), AllocError>
    requires own { IsPassOf service.now.outbox.now tells.old.pass }
    requires may { MayServe (H.is_pass service.now.hub.now) (H.shape service.now.hub.now) P.known
        service.now.inboxes.now desks.old (knows tells.old.pass) }
    ensures own { IsPassOf service.now.outbox.now tells.new.pass }
    ensures served { HaveServed (H.is_pass service.now.hub.now) (H.shape service.now.hub.now)
        P.known service.now.inboxes.now desks.old desks.new (knows tells.old.pass)
        (knows tells.new.pass) result }
{
    tells.refused = false;
    run(service.rt, service, desks, tells)
}

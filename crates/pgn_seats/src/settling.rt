ghost use Rattle.pgn_outlet.specs.Passes.{IsPassOf, knows};
ghost use Rattle.pgn_seats.specs.Working.{HasTried, MayDo};
ghost use Rattle.pgn_messages.specs.declared.asked.Ask.TheVariants.{Settle};

use crate::telling::say;
use crate::{Desk, Service};
use pgn_hub::{Hub, PassView};
use pgn_messages::{Saying, tell_settled};
use pgn_outlet::OutletPass;
use pgn_requests::Settled;
use std::alloc::AllocError;
use std::sync::Wait;

// Settles what is settled without the session, which has no line and no item of it, and tells it at once.
pub(crate) fn settle<P: PassView + Drop, H: Hub<Pass = P>, R: Wait>(
    service: &Service<'_, H, R>,
    desk: &mut Desk<P>,
    settled: &Settled,
    tells: &mut OutletPass<Saying>,
) -> Result<(), AllocError>
    requires own { IsPassOf service.now.outbox.now tells.old }
    requires may { MayDo (H.is_pass service.now.hub.now) (H.shape service.now.hub.now) P.known
        desk.old (knows tells.old) }
    ensures own { IsPassOf service.now.outbox.now tells.new }
    ensures tried { HasTried (H.is_pass service.now.hub.now) (H.shape service.now.hub.now) P.known
        (Settle settled.now) desk.old desk.new (knows tells.old) (knows tells.new) result }
{
    let no = desk.session.section.no;
    let state = desk.session.block.state();
    let bytes = tell_settled(service.alloc, no, settled, &mut desk.settings, state)?;
    say(service, no, bytes, tells)
}

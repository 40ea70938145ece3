ghost use Rattle.pgn_outlet.specs.Passes.{IsPassOf, knows};
ghost use Rattle.pgn_seats.specs.Working.{HasTried, MayDo};
ghost use Rattle.pgn_messages.specs.declared.asked.Ask.TheVariants.{Discard};

use crate::lines::take_both;
use crate::telling::{discard_bytes, say};
use crate::{Desk, Service};
use pgn_hub::{Hub, PassView};
use pgn_messages::{Saying, discard_at};
use pgn_outlet::OutletPass;
use std::alloc::AllocError;
use std::sync::Wait;

// Does `DISCARD ALL`, by two lines from this number on, and tells it by the state of the block before them, with what was heard meanwhile.
pub(crate) fn discard<P: PassView + Drop, H: Hub<Pass = P>, R: Wait>(
    service: &Service<'_, H, R>,
    desk: &mut Desk<P>,
    line: u32,
    tells: &mut OutletPass<Saying>,
) -> Result<(), AllocError>
    requires own { IsPassOf service.now.outbox.now tells.old }
    requires may { MayDo (H.is_pass service.now.hub.now) (H.shape service.now.hub.now) P.known
        desk.old (knows tells.old) }
    ensures own { IsPassOf service.now.outbox.now tells.new }
    ensures tried { HasTried (H.is_pass service.now.hub.now) (H.shape service.now.hub.now) P.known
        (Discard line) desk.old desk.new (knows tells.old) (knows tells.new) result }
{
    let from = desk.session.items.len();
    let state = desk.session.block.state();
    take_both(service, desk, discard_at(service.alloc, line))?;
    let bytes = discard_bytes(
        service.alloc,
        &mut desk.settings,
        state,
        &desk.session,
        from,
    )?;
    say(service, desk.session.section.no, bytes, tells)
}

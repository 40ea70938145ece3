ghost use Rattle.std.specs.Prelude.{◌≡◌};
ghost use Rattle.pgn_outlet.specs.Passes.{IsPassOf, knows};
ghost use Rattle.pgn_requests.specs.Settings.{fresh};
ghost use Rattle.pgn_seats.specs.Working.{HasTried, MayDo};
ghost use Rattle.pgn_messages.specs.declared.asked.Ask.TheVariants.{End};

use crate::lines::take_both;
use crate::telling::say_end;
use crate::{Desk, Service};
use pgn_hub::{Hub, PassView};
use pgn_messages::{Parting, Saying, rollback_at};
use pgn_outlet::OutletPass;
use pgn_requests::Settings;
use std::alloc::{AllocError, Global};
use std::mem;
use std::sync::Wait;

// Sets the seat back behind a client's end, by two lines from this number on of whose answers nobody is told, and with the settings of the
// next client; and then tells the end.
pub(crate) fn reset<P: PassView + Drop, H: Hub<Pass = P>, R: Wait>(
    service: &Service<'_, H, R>,
    desk: &mut Desk<P>,
    line: u32,
    parting: Parting,
    tells: &mut OutletPass<Saying>,
) -> Result<(), AllocError>
    requires own { IsPassOf service.now.outbox.now tells.old }
    requires may { MayDo (H.is_pass service.now.hub.now) (H.shape service.now.hub.now) P.known
        desk.old (knows tells.old) }
    ensures own { IsPassOf service.now.outbox.now tells.new }
    ensures tried { HasTried (H.is_pass service.now.hub.now) (H.shape service.now.hub.now) P.known
        (End line parting) desk.old desk.new (knows tells.old) (knows tells.new) result }
{
    take_both(service, desk, rollback_at(service.alloc, line))?;
    freshen(service.alloc, &mut desk.settings);
    say_end(service, desk.session.section.no, parting, tells)
}

// The settings of the next client.
fn freshen(alloc: Global, settings: &mut Settings)
    ensures { settings.new ≡ fresh }
{
    drop(mem::replace(settings, Settings::new(alloc)));
}

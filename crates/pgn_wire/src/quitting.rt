ghost use Rattle.std.specs.Prelude.{◌≡◌, None, OnOk, OnErr};
ghost use Rattle.pgn_messages.specs.Messages.{messages};
ghost use Rattle.pgn_session.specs.Standing.{IsServedBy};
ghost use Rattle.pgn_session.specs.Whole.{HasRest, IsSameScript};
ghost use Rattle.pgn_session.specs.Open.{IsOpen};
ghost use Rattle.pgn_wire.specs.Serving.{HasStopped};

use pgn_hub::{Hub, PassView};
use pgn_session::{Doing, Session};
use std::alloc::{AllocError, Global};
use std::sync::Wait;

// Lets the session take the `\quit` that ends its script.
pub(crate) fn quit<P: PassView + Drop, H: Hub<Pass = P>, R: Wait>(
    rt: &R,
    alloc: Global,
    hub: &H,
    session: &mut Session<P>,
) -> Result<(), AllocError>
    requires own { H.is_pass hub.now session.old.pass }
    requires served { IsServedBy (H.shape hub.now) session.old.section session.old.plan }
    requires rested { HasRest (H.shape hub.now) P.known session.old }
    requires between { IsOpen session.old }
    ensures own { H.is_pass hub.now session.new.pass }
    ensures same { IsSameScript session.old session.new }
    ensures over { OnOk result (session.new.doing ≡ Doing.Over) }
    ensures left { OnOk result ((P.known session.new.pass).mark ≡ None) }
    ensures rested { OnOk result (HasRest (H.shape hub.now) P.known session.new) }
    ensures silent { OnOk result (messages session.new.section session.new.items.items
        ≡ messages session.old.section session.old.items.items) }
    ensures stopped { OnErr result (HasStopped (H.shape hub.now) P.known session.old session.new) }
{
    let _step = session.step(rt, alloc, hub)?;
    let _done = session.idle(alloc, hub)?;
    Ok(())
}

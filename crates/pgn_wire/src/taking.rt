ghost use Rattle.std.specs.Prelude.{◌≡◌, ◌+◌, ◌≤◌, [], ◌∷◌, OnOk, OnErr};
ghost use Rattle.pgn_language.specs.Inputs.{note_lines_of};
ghost use Rattle.pgn_session.specs.Parts.{Begins};
ghost use Rattle.pgn_session.specs.Whole.{HasAnswer, HasRest};
ghost use Rattle.pgn_session.specs.Open.{HasReadOutside, HasStood, IsFedOrNot, IsSameClient, RunsCommand};
ghost use Rattle.pgn_wire.specs.Serving.{HasStopped, HasTaken, IsReady};

use pgn_answers::BlockState;
use pgn_hub::{Hub, PassView};
use pgn_language::ScriptLine;
use pgn_session::{Doing, Session};
use std::alloc::{AllocError, Global};
use std::sync::Wait;

// Puts a query's line into the script, lets the session take it, and lets it read where it was woken.
pub(crate) fn take_query<P: PassView + Drop, H: Hub<Pass = P>, R: Wait>(
    rt: &R,
    alloc: Global,
    hub: &H,
    session: &mut Session<P>,
    line: ScriptLine,
) -> Result<(), AllocError>
    requires ready { IsReady (H.is_pass hub.now) (H.shape hub.now) P.known session.old }
    requires runs { RunsCommand line }
    requires few { note_lines_of (line ∷ []) + note_lines_of session.old.section.lines
        ≤ session.old.section.note_lines }
    ensures own { H.is_pass hub.now session.new.pass }
    ensures same { IsSameClient session.old session.new }
    ensures taken { OnOk result (HasTaken session.old line session.new) }
    ensures rested { OnOk result (HasRest (H.shape hub.now) P.known session.new) }
    ensures read_up { OnOk result (HasReadOutside P.known session.new) }
    ensures stopped { OnErr result (HasStopped (H.shape hub.now) P.known session.old session.new) }
    ensures script { OnErr result (IsFedOrNot session.old.section line session.new.section) }
{
    session.feed(line)?;
    let _step = session.step(rt, alloc, hub)?;
    read_behind(alloc, hub, session)?;
    Ok(())
}

// Reads where the session was woken and, outside a block, what was sent before: so a later LISTEN brings nothing that is older than it.
fn read_behind<P: PassView + Drop, H: Hub<Pass = P>>(
    alloc: Global,
    hub: &H,
    session: &mut Session<P>,
) -> Result<(), AllocError>
    requires own { H.is_pass hub.now session.old.pass }
    requires answered { HasAnswer (H.shape hub.now) P.known session.old }
    requires between { session.old.doing ≡ Doing.Lines }
    ensures own { H.is_pass hub.now session.new.pass }
    ensures same { session.new
        ≡ record session.old { pass = session.new.pass; items = session.new.items } }
    ensures grows { Begins session.old.items.items session.new.items.items }
    ensures rested { OnOk result (HasRest (H.shape hub.now) P.known session.new) }
    ensures stood { HasStood (H.shape hub.now) P.known session.new }
    ensures read_up { OnOk result (HasReadOutside P.known session.new) }
{
    let _done = session.idle(alloc, hub)?;
    if session.block.state() != BlockState::Idle {
        return Ok(());
    }
    session.read_first(alloc, hub)
}

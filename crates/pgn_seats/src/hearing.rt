ghost use Rattle.std.specs.Prelude.{◌≡◌, ◌≢◌, None, List, Ok, OnErr, OnOk};
ghost use Rattle.pgn_language.specs.declared.scenario.ScriptLine.{ScriptLine};
ghost use Rattle.pgn_outlet.specs.Passes.{IsPassOf, knows};
ghost use Rattle.pgn_outlet.specs.Rule.{MayPush};
ghost use Rattle.pgn_seats.specs.Serving.{HasPushedFor};
ghost use Rattle.pgn_seats.specs.Workers.{HasListened};
ghost use Rattle.pgn_seats.specs.Working.{GoesOn, StopsFirst, IsAtLine, IsAtWork};
ghost use Rattle.pgn_session.specs.FirstRead.{HasReadTold, IsToReadFirst};
ghost use Rattle.pgn_session.specs.Runs.{IsLawful};

use crate::Service;
use crate::telling::say_heard;
use pgn_hub::{Hub, PassView};
use pgn_messages::Saying;
use pgn_outlet::OutletPass;
use pgn_session::{IdleDone, Session};
use pgn_workers::Turn;
use std::alloc::AllocError;
use std::sync::Wait;

// Reads before the line that is to come, if it listens or opens a block, and tells what was heard.
pub(crate) fn hear_before<P: PassView + Drop, H: Hub<Pass = P>, R: Wait>(
    service: &Service<'_, H, R>,
    session: &mut Session<P>,
    tells: &mut OutletPass<Saying>,
) -> Result<(), AllocError>
    requires own { IsPassOf service.now.outbox.now tells.old }
    requires may { MayPush (knows tells.old) session.old.section.no }
    requires line { (line : ScriptLine) × IsAtLine (H.is_pass service.now.hub.now)
        (H.shape service.now.hub.now) P.known line session.old }
    ensures own { IsPassOf service.now.outbox.now tells.new }
    ensures alone { HasPushedFor session.old.section.no (knows tells.old) (knows tells.new) }
    ensures same { session.new
        ≡ record session.old { pass = session.new.pass; items = session.new.items } }
    ensures lawful { IsLawful (H.shape service.now.hub.now) session.new }
    ensures line { (line : ScriptLine) → IsAtLine (H.is_pass service.now.hub.now)
        (H.shape service.now.hub.now) P.known line session.old
        → IsAtLine (H.is_pass service.now.hub.now) (H.shape service.now.hub.now) P.known line
        session.new }
    ensures read_up { OnOk result (IsToReadFirst session.new
        → HasReadTold (P.known session.new.pass)) }
    ensures went { (rest : List ScriptLine) → OnOk result
        (GoesOn rest rest None session.old session.new (knows tells.old) (knows tells.new)) }
    ensures stopped { (rest : List ScriptLine)
        → OnErr result
        (StopsFirst rest session.old session.new (knows tells.old) (knows tells.new)) }
{
    let from = session.items.len();
    session.read_before_line(service.alloc, service.hub)?;
    say_heard(service, session, from, tells)
}

// Where nothing is asked: reads where the session was woken, and tells what was heard. The error is also that the run was called off.
pub(crate) fn listen<P: PassView + Drop, H: Hub<Pass = P>, R: Wait>(
    service: &Service<'_, H, R>,
    session: &mut Session<P>,
    tells: &mut OutletPass<Saying>,
) -> Result<Turn, AllocError>
    requires own { IsPassOf service.now.outbox.now tells.old }
    requires may { MayPush (knows tells.old) session.old.section.no }
    requires work { IsAtWork (H.is_pass service.now.hub.now) (H.shape service.now.hub.now) P.known
        session.old }
    ensures own { IsPassOf service.now.outbox.now tells.new }
    ensures heard { HasListened (H.is_pass service.now.hub.now) (H.shape service.now.hub.now)
        P.known session.old session.new (knows tells.old) (knows tells.new) result }
{
    let from = session.items.len();
    let done = session.idle(service.alloc, service.hub)?;
    say_heard(service, session, from, tells)?;
    rest_behind(service.hub, done)
}

// What a turn was in which nothing was asked, by what the session did.
fn rest_behind<H: Hub>(hub: &H, done: IdleDone) -> Result<Turn, AllocError>
    ensures { result ≢ Ok Turn.Ended }
{
    let heard = matches!(done, IdleDone::Read { .. });
    if !heard && hub.is_called_off() {
        return Err(AllocError);
    }
    Ok(Turn::waited(heard))
}

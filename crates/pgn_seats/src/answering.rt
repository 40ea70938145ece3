ghost use Rattle.std.specs.Prelude.{◌≡◌, Some, [], ◌∷◌, OnOk, OnErr};
ghost use Rattle.pgn_language.specs.Inputs.{note_lines_of};
ghost use Rattle.pgn_outlet.specs.Passes.{IsPassOf, knows};
ghost use Rattle.pgn_outlet.specs.Rule.{MayPush};
ghost use Rattle.pgn_seats.specs.Serving.{HasPushedFor};
ghost use Rattle.pgn_seats.specs.Working.{GoesOn, HasPut, HasTried, IsAtLine, IsAtWork, MayDo, StopsFirst};
ghost use Rattle.pgn_session.specs.FirstRead.{HasReadTold, IsToReadFirst};
ghost use Rattle.pgn_session.specs.Open.{IsOpen};
ghost use Rattle.pgn_session.specs.Runs.{IsLawful};
ghost use Rattle.pgn_session.specs.Whole.{IsSameScript};
ghost use Rattle.pgn_messages.specs.declared.asked.Ask.TheVariants.{Query};
ghost use Rattle.pgn_messages.specs.Asks.{line_of};

use crate::hearing::hear_before;
use crate::lines::{put_line, run_line};
use crate::telling::say_answer;
use crate::{Desk, Service};
use pgn_hub::{Hub, PassView};
use pgn_messages::{Asked, Saying};
use pgn_outlet::OutletPass;
use pgn_session::Session;
use std::alloc::{AllocError, Global};
use std::sync::Wait;

// Answers a query: what is heard before its line is told before, and its whole answer at once.
pub(crate) fn answer<P: PassView + Drop, H: Hub<Pass = P>, R: Wait>(
    service: &Service<'_, H, R>,
    desk: &mut Desk<P>,
    query: &Asked,
    tells: &mut OutletPass<Saying>,
) -> Result<(), AllocError>
    requires own { IsPassOf service.now.outbox.now tells.old }
    requires may { MayDo (H.is_pass service.now.hub.now) (H.shape service.now.hub.now) P.known
        desk.old (knows tells.old) }
    ensures own { IsPassOf service.now.outbox.now tells.new }
    ensures tried { HasTried (H.is_pass service.now.hub.now) (H.shape service.now.hub.now) P.known
        (Query query.now) desk.old desk.new (knows tells.old) (knows tells.new) result }
{
    put_query(service.alloc, desk, query)?;
    hear_before(service, &mut desk.session, tells)?;
    run_query(service, &mut desk.session, query, tells)
}

// Puts a query's line into the script.
fn put_query<P: PassView + Drop>(
    alloc: Global,
    desk: &mut Desk<P>,
    query: &Asked,
) -> Result<(), AllocError>
    requires is_open { IsOpen desk.old.session }
    requires counted { desk.old.notes ≡ note_lines_of desk.old.session.section.lines }
    ensures { HasPut P.known desk.old (line_of query.now) desk.new result }
{
    let line = query.script_line(alloc)?;
    put_line(desk, line)
}

// Runs a query's line, which is to come, and tells its whole answer. Where memory does not suffice, nothing of it is told.
fn run_query<P: PassView + Drop, H: Hub<Pass = P>, R: Wait>(
    service: &Service<'_, H, R>,
    session: &mut Session<P>,
    query: &Asked,
    tells: &mut OutletPass<Saying>,
) -> Result<(), AllocError>
    requires own { IsPassOf service.now.outbox.now tells.old }
    requires may { MayPush (knows tells.old) session.old.section.no }
    requires line { IsAtLine (H.is_pass service.now.hub.now) (H.shape service.now.hub.now) P.known
        (line_of query.now) session.old }
    requires read_up { IsToReadFirst session.old → HasReadTold (P.known session.old.pass) }
    ensures own { IsPassOf service.now.outbox.now tells.new }
    ensures alone { HasPushedFor session.old.section.no (knows tells.old) (knows tells.new) }
    ensures same { IsSameScript session.old session.new }
    ensures lawful { IsLawful (H.shape service.now.hub.now) session.new }
    ensures work { OnOk result (IsAtWork (H.is_pass service.now.hub.now)
        (H.shape service.now.hub.now) P.known session.new) }
    ensures went { OnOk result (GoesOn (line_of query.now ∷ []) [] (Some (Query query.now))
        session.old session.new (knows tells.old) (knows tells.new)) }
    ensures stopped { OnErr result (StopsFirst (line_of query.now ∷ []) session.old session.new
        (knows tells.old) (knows tells.new)) }
{
    let from = session.items.len();
    run_line(service, session)?;
    say_answer(service, session, from, query, tells)
}

ghost use Rattle.std.specs.Prelude.{◌≡◌, ◌+◌, ◌≤◌, true, cond};
ghost use Rattle.pgn_language.specs.Inputs.{is_note_act, note_lines_of};
ghost use Rattle.pgn_seats.specs.Working.{HasGone, HasPut, HasRunBoth, HasRunPut, HasTaken, MayStep, MayTake};
ghost use Rattle.pgn_session.specs.Open.{IsOpen, RunsCommand};
ghost use Rattle.pgn_messages.specs.Asks.{unlisten_line};

use crate::{Desk, Service};
use pgn_base::Command;
use pgn_hub::{Hub, PassView};
use pgn_language::{Act, ScriptLine};
use pgn_messages::unlisten_at;
use pgn_session::Session;
use std::alloc::AllocError;
use std::sync::Wait;

// Puts two lines into the script and runs them: this one, and behind it the one that ends all listening.
pub(crate) fn take_both<P: PassView + Drop, H: Hub<Pass = P>, R: Wait>(
    service: &Service<'_, H, R>,
    desk: &mut Desk<P>,
    line: ScriptLine,
) -> Result<(), AllocError>
    requires { MayTake (H.is_pass service.now.hub.now) (H.shape service.now.hub.now) P.known line
        desk.old }
    ensures { HasTaken (H.is_pass service.now.hub.now) (H.shape service.now.hub.now) P.known
        (HasRunBoth desk.old.session line (unlisten_line (line.line + 1)) desk.new.session) desk.old
        desk.new result }
{
    let number = line.line;
    take_line(service, desk, line)?;
    let Some(next) = number.checked_add(1) else {
        return Err(AllocError);
    };
    let behind = unlisten_at(service.alloc, next);
    take_line(service, desk, behind)
}

// Puts a line into the script and runs it.
fn take_line<P: PassView + Drop, H: Hub<Pass = P>, R: Wait>(
    service: &Service<'_, H, R>,
    desk: &mut Desk<P>,
    line: ScriptLine,
) -> Result<(), AllocError>
    requires { MayTake (H.is_pass service.now.hub.now) (H.shape service.now.hub.now) P.known line
        desk.old }
    ensures { HasTaken (H.is_pass service.now.hub.now) (H.shape service.now.hub.now) P.known
        (HasRunPut desk.old.session line desk.new.session) desk.old desk.new result }
{
    put_line(desk, line)?;
    run_line(service, &mut desk.session)
}

// Lets the session take the line that is to come, or the `\quit` behind the last, and read where it was woken.
pub(crate) fn run_line<P: PassView + Drop, H: Hub<Pass = P>, R: Wait>(
    service: &Service<'_, H, R>,
    session: &mut Session<P>,
) -> Result<(), AllocError>
    requires { MayStep (H.is_pass service.now.hub.now) (H.shape service.now.hub.now) P.known
        session.old }
    ensures { HasGone (H.is_pass service.now.hub.now) (H.shape service.now.hub.now) P.known
        session.old session.new result }
{
    let _step = session.step(service.rt, service.alloc, service.hub)?;
    let _done = session.idle(service.alloc, service.hub)?;
    Ok(())
}

// Puts a line that runs a command into the script, before the `\quit` that ends it. The error is that memory did not suffice, or that more
// lines would notify than may, which whoever asks sees to; nothing has changed then.
pub(crate) fn put_line<P: PassView + Drop>(
    desk: &mut Desk<P>,
    line: ScriptLine,
) -> Result<(), AllocError>
    requires is_open { IsOpen desk.old.session }
    requires runs { RunsCommand line }
    requires counted { desk.old.notes ≡ note_lines_of desk.old.session.section.lines }
    ensures { HasPut P.known desk.old line desk.new result }
{
    let more = notes_in(&line.act);
    if !have_room(desk.notes, more, desk.session.section.note_lines) {
        drop(line);
        return Err(AllocError);
    }
    desk.session.feed(line)?;
    desk.notes += more;
    Ok(())
}

// How many lines with this act notify: it, or none.
fn notes_in(act: &Act) -> u32
    ensures { result ≡ cond (is_note_act act.now) 1 0 }
{
    match act {
        Act::Run(Command::Notify(_) | Command::PgNotify(_)) => 1,
        _ => 0,
    }
}

// Whether so many more may notify.
fn have_room(notes: u32, more: u32, most: u32) -> bool
    ensures { result ≡ true → more + notes ≤ most }
{
    notes <= most && more <= most - notes
}

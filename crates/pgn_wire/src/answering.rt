ghost use Rattle.std.specs.Prelude.{◌≡◌, ◌+◌, ◌<◌, ◌≤◌, ◌⊎◌, [], ◌∷◌, ◌++◌, List, ℕ, Option, Err, drop, length, IfOk, OnOk, OnErr};
ghost use Rattle.std.specs.Io.KnownBytes.{Appends};
ghost use Rattle.pgn_base.specs.Outside.{Rose};
ghost use Rattle.pgn_language.specs.declared.scenario.Act.TheVariants.{Run};
ghost use Rattle.pgn_language.specs.Inputs.{note_lines_of};
ghost use Rattle.pgn_messages.specs.Messages.{answer_messages, messages};
ghost use Rattle.pgn_session.specs.Whole.{HasRest};
ghost use Rattle.pgn_session.specs.Open.{HasReadOutside, HasStood, IsFedOrNot, IsSameClient, RunsCommand};
ghost use Rattle.pgn_wire.specs.Serving.{AreWhole, HasTaken, HasWritten, IsReady};

use crate::WireEnd;
use crate::host::Host;
use crate::taking::take_query;
use pgn_base::{Command, Copied, Sink, write_all};
use pgn_hub::{Hub, PassView};
use pgn_language::{Act, ScriptLine};
use pgn_messages::{Bytes, answer_query};
use pgn_session::Session;
use std::alloc::{AllocError, Global};
use std::sync::Wait;

// Takes a query, and sends its whole answer. Where memory does not suffice, nothing of the answer is sent.
pub(crate) fn one_query<P: PassView + Drop, H: Hub<Pass = P>, R: Wait, K: Sink>(
    host: &Host<'_, H, R>,
    session: &mut Session<P>,
    line: ScriptLine,
    sink: &mut K,
) -> Result<(), WireEnd>
    requires ready { IsReady (H.is_pass host.now.hub.now) (H.shape host.now.hub.now) P.known
        session.old }
    requires runs { RunsCommand line }
    requires few { note_lines_of (line ∷ []) + note_lines_of session.old.section.lines
        ≤ session.old.section.note_lines }
    ensures own { H.is_pass host.now.hub.now session.new.pass }
    ensures same { IsSameClient session.old session.new }
    ensures taken { OnOk result (HasTaken session.old line session.new) }
    ensures rested { OnOk result (HasRest (H.shape host.now.hub.now) P.known session.new) }
    ensures read_up { OnOk result (HasReadOutside P.known session.new) }
    ensures stood { HasStood (H.shape host.now.hub.now) P.known session.new }
    ensures script { OnErr result (IsFedOrNot session.old.section line session.new.section) }
    ensures written { (held : Option (List ℕ))
        → Appends held (K.held sink.old) (messages session.old.section session.old.items.items)
        → HasWritten result held (K.held sink.new) session.new.section session.new.items.items }
    ensures ends { OnErr result ((result ≡ Err WireEnd.Write) ⊎ (result ≡ Err WireEnd.Memory)) }
    ensures later { K.faults sink.old ≤ K.faults sink.new }
    ensures failed { result ≡ Err WireEnd.Write → Rose (K.faults sink.old) (K.faults sink.new) }
    ensures rose { K.faults sink.old < K.faults sink.new → result ≡ Err WireEnd.Write }
{
    let Ok(bytes) = answered(host, session, line) else {
        return Err(WireEnd::Memory);
    };
    let sent = write_all(sink, bytes.as_slice());
    drop(bytes);
    match sent {
        Ok(()) => Ok(()),
        Err(_) => Err(WireEnd::Write),
    }
}

// Takes a query, and makes its whole answer. Where memory does not suffice, what was answered so far are whole answers.
fn answered<P: PassView + Drop, H: Hub<Pass = P>, R: Wait>(
    host: &Host<'_, H, R>,
    session: &mut Session<P>,
    line: ScriptLine,
) -> Result<Bytes, AllocError>
    requires ready { IsReady (H.is_pass host.now.hub.now) (H.shape host.now.hub.now) P.known
        session.old }
    requires runs { RunsCommand line }
    requires few { note_lines_of (line ∷ []) + note_lines_of session.old.section.lines
        ≤ session.old.section.note_lines }
    ensures own { H.is_pass host.now.hub.now session.new.pass }
    ensures same { IsSameClient session.old session.new }
    ensures taken { OnOk result (HasTaken session.old line session.new) }
    ensures rested { OnOk result (HasRest (H.shape host.now.hub.now) P.known session.new) }
    ensures read_up { OnOk result (HasReadOutside P.known session.new) }
    ensures stood { HasStood (H.shape host.now.hub.now) P.known session.new }
    ensures script { OnErr result (IsFedOrNot session.old.section line session.new.section) }
    ensures answer { IfOk result (λ bytes. messages session.new.section session.new.items.items
        ≡ messages session.old.section session.old.items.items ++ bytes) }
    ensures whole { OnErr result (AreWhole session.new.section session.new.items.items
        (messages session.old.section session.old.items.items)) }
{
    let from = session.items.len();
    // What is owned is dropped by a call before each return.
    let Ok(command) = command_of(host.alloc, &line) else {
        drop(line);
        return Err(AllocError);
    };
    let Ok(()) = take_query(host.rt, host.alloc, host.hub, session, line) else {
        drop(command);
        return Err(AllocError);
    };
    let answer = answer_behind(host.alloc, session, from, &command);
    drop(command);
    answer
}

// The command of a query's line, copied.
fn command_of(alloc: Global, line: &ScriptLine) -> Result<Command, AllocError>
    requires { RunsCommand line.now }
    ensures { IfOk result (λ command. line.now.act ≡ Run command) }
{
    let Act::Run(command) = &line.act else {
        unreachable!()
    };
    command.copy(alloc)
}

// The answer to a query with this command, whose line is the session's item of this place.
fn answer_behind<P>(
    alloc: Global,
    session: &Session<P>,
    from: usize,
    command: &Command,
) -> Result<Bytes, AllocError>
    requires { from < length session.now.items.items }
    ensures { IfOk result (λ bytes. bytes
        ≡ answer_messages command.now (drop (from + 1) session.now.items.items)
        session.now.block.state) }
{
    let items = session.items.as_slice();
    answer_query(alloc, command, &items[from + 1..], session.block.state())
}

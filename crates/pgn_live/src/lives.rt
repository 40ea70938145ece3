ghost use Rattle.std.specs.Prelude.{◌≡◌, ◌<◌, ◌≤◌, true, [], map, length, Ok, Err, IfOk, OnOk, All};
ghost use Rattle.std.specs.Io.KnownBytes.{Appends};
ghost use Rattle.pgn_base.specs.Outside.{AppendsPrefix, Rose};
ghost use Rattle.pgn_language.specs.Inputs.{AreNumbered};
ghost use Rattle.pgn_live.specs.Lives.{CameTo, ComesFirst, ComesWhole, HasWritten, IsFresh, StandIn, answer_of, logs_of};
ghost use Rattle.pgn_live.specs.Playing.{HavePlayed, IsNoneTold, MayPlay, sections_of};
ghost use Rattle.pgn_outlet.specs.Passes.{IsPassOf, knows};
ghost use Rattle.pgn_outlet.specs.Rule.{sender};
ghost use Rattle.pgn_outlet.specs.Rule as rule;
ghost use Rattle.pgn_session.specs.Runs.{HasStopped, IsLawful, IsOver, IsReady, script_of};

use crate::relay::{Live, Relay};
use crate::telling::Telling;
use crate::writing::{Writer, cursors_for, write_rest, write_until};
use pgn_base::{Failed, Sink};
use pgn_hub::{Hub, PassView};
use pgn_language::Section;
use pgn_model::Items;
use pgn_outlet::Outlet;
use pgn_session::{Session, give_up_all};
use pgn_text::Out;
use pgn_workers::run;
use std::alloc::{AllocError, Global};
use std::sync::Wait;
use std::thread::{Threads, join_mut};
use std::time::Clock;

/// Why sessions that ran live did not come to a good end.
#[derive(Clone, Copy)]
pub enum LiveFault {
    /// A write failed. The sessions have run on to their end all the same.
    Write,
    /// Memory did not suffice for some session, or for what one had to tell.
    Memory,
}

/// Runs sessions until all are over, as `run_sessions` of `pgn_threads` does, and writes the lines of what they record while they run,
/// each behind its session's number. `sections` is where the text of a script line is found. The sessions are numbered from 1 on and are
/// at most 256.
#[tactic(auto, using(crate::proofs::LiveLaws::early_laws))]
pub fn run_live<
    P: PassView + Send + Drop,
    H: Hub<Pass = P> + Sync,
    R: Threads + Wait + Clock + Sync,
    K: Sink + Send,
>(
    rt: &R,
    alloc: Global,
    hub: &H,
    sections: &[Section],
    sessions: &mut [Session<P>],
    sink: &mut K,
) -> Result<(), LiveFault>
    requires ready { All (IsReady (H.is_pass hub.now) (H.shape hub.now) P.known) sessions.old }
    requires numbered { AreNumbered 1 (sections_of sessions.old) }
    requires few { length sessions.old ≤ 256 }
    ensures over { OnOk result (All (IsOver (H.is_pass hub.now) (H.shape hub.now) P.known) sessions.new) }
    ensures stopped { All (HasStopped (H.is_pass hub.now) (H.shape hub.now) P.known) sessions.new }
    ensures lawful { All (IsLawful (H.shape hub.now)) sessions.new }
    ensures scripts { map script_of sessions.new ≡ map script_of sessions.old }
    ensures done { OnOk result (ComesWhole sections.now (logs_of sessions.new) (Appends (K.held sink.old) (K.held sink.new))) }
    ensures write_writes_a_prefix { result ≡ Err LiveFault.Write → ComesWhole sections.now (logs_of sessions.new) (AppendsPrefix (K.held sink.old) (K.held sink.new)) }
    ensures memory_writes_first_items { result ≡ Err LiveFault.Memory → ComesFirst sections.now (logs_of sessions.new) (Appends (K.held sink.old) (K.held sink.new)) }
    ensures write { result ≡ Err LiveFault.Write → Rose (K.faults sink.old) (K.faults sink.new) }
    ensures write_where_due { K.faults sink.old < K.faults sink.new → result ≡ Err LiveFault.Write }
    ensures later { K.faults sink.old ≤ K.faults sink.new }
{
    let Ok((outlet, telling, writer)) = open_live(alloc, sections.len()) else {
        give_up_first(hub, sessions);
        return Err(LiveFault::Memory);
    };
    let relay = Relay::new();
    let live = Live {
        rt,
        alloc,
        hub,
        outlet: &outlet,
        relay: &relay,
        sections,
    };
    let came = run_to_the_end(&live, telling, writer, sessions, sink);
    outlet.destroy();
    came
}

// The queue by which sessions tell, what they tell by, and who writes it, where there are so many sections.
fn open_live(alloc: Global, sections: usize) -> Result<(Outlet<Items>, Telling, Writer), AllocError>
    ensures own { IfOk result (λ opened. IsPassOf opened.0 opened.1.pass
        × IsPassOf opened.0 opened.2.pass) }
    ensures sends { IfOk result (λ opened. knows opened.1.pass ≡ sender) }
    ensures none { IfOk result (λ opened. IsNoneTold opened.1.told) }
    ensures takes { IfOk result (λ opened. knows opened.2.pass ≡ rule.taker) }
    ensures fresh { IfOk result (λ opened. All IsFresh opened.2.cursors.items) }
    ensures nothing { IfOk result (λ opened. opened.2.out.kept ≡ []) }
    ensures fine { IfOk result (λ opened. opened.2.out.so_far ≡ Ok tt) }
{
    let cursors = cursors_for(alloc, sections)?;
    let Ok((outlet, pass, taker)) = Outlet::open(alloc) else {
        drop(cursors);
        return Err(AllocError);
    };
    let writer = Writer {
        pass: taker,
        cursors,
        out: Out::new(),
    };
    Ok((outlet, Telling::new(pass), writer))
}

// Raises the end flags of sessions that have not begun.
#[tactic(auto, using(crate::proofs::RoundLaws::early_laws))]
fn give_up_first<P: PassView + Drop, H: Hub<Pass = P>>(hub: &H, sessions: &mut [Session<P>])
    requires ready { All (IsReady (H.is_pass hub.now) (H.shape hub.now) P.known) sessions.old }
    ensures stopped { All (HasStopped (H.is_pass hub.now) (H.shape hub.now) P.known) sessions.new }
    ensures lawful { All (IsLawful (H.shape hub.now)) sessions.new }
    ensures scripts { map script_of sessions.new ≡ map script_of sessions.old }
{
    give_up_all(hub, sessions);
}

// Runs the sessions and writes what they tell, till nothing is left of it.
fn run_to_the_end<
    P: PassView + Send + Drop,
    H: Hub<Pass = P> + Sync,
    R: Threads + Wait + Clock + Sync,
    K: Sink + Send,
>(
    live: &Live<'_, R, H>,
    mut telling: Telling,
    mut writer: Writer,
    sessions: &mut [Session<P>],
    sink: &mut K,
) -> Result<(), LiveFault>
    requires ready { All (IsReady (H.is_pass live.now.hub.now) (H.shape live.now.hub.now) P.known)
        sessions.old }
    requires numbered { AreNumbered 1 (sections_of sessions.old) }
    requires few { length sessions.old ≤ 256 }
    requires own { IsPassOf live.now.outlet.now telling.pass × IsPassOf live.now.outlet.now writer.pass }
    requires sends { knows telling.pass ≡ sender }
    requires none { IsNoneTold telling.told }
    requires takes { knows writer.pass ≡ rule.taker }
    requires stand { StandIn live.now.sections.now writer.cursors.items }
    requires nothing { writer.out.kept ≡ [] }
    requires fine { writer.out.so_far ≡ Ok tt }
    ensures scripts { map script_of sessions.new ≡ map script_of sessions.old }
    ensures came { CameTo (H.is_pass live.now.hub.now) (H.shape live.now.hub.now) P.known K.held K.faults
        live.now.sections.now sessions.new sink.old sink.new result }
{
    let played = play_and_write(live, &mut telling, &mut writer, sessions, sink);
    let Telling { mut pass, .. } = telling;
    let Writer {
        pass: taker,
        cursors,
        out,
    } = writer;
    live.outlet.close(&mut pass, taker);
    let mut writer = Writer { pass, cursors, out };
    write_rest(live, &mut writer, sink);
    answer(writer.out.so_far, played)
}

// Runs the sessions, and writes beside them what they tell. The writer is the closure that the join calls last where no thread can be had, so
// that it never waits for sessions that have not begun: no contract says so, and the other way round such a run would not end.
fn play_and_write<
    P: PassView + Send + Drop,
    H: Hub<Pass = P> + Sync,
    R: Threads + Wait + Clock + Sync,
    K: Sink + Send,
>(
    live: &Live<'_, R, H>,
    telling: &mut Telling,
    writer: &mut Writer,
    sessions: &mut [Session<P>],
    sink: &mut K,
) -> Result<(), AllocError>
    requires own { IsPassOf live.now.outlet.now telling.old.pass × IsPassOf live.now.outlet.now writer.old.pass }
    requires may { MayPlay (H.is_pass live.now.hub.now) (H.shape live.now.hub.now) P.known
        sessions.old (knows telling.old.pass) }
    requires none { IsNoneTold telling.old.told }
    requires takes { (knows writer.old.pass).takes ≡ true }
    requires stand { StandIn live.now.sections.now writer.old.cursors.items }
    ensures own { IsPassOf live.now.outlet.now telling.new.pass × IsPassOf live.now.outlet.now writer.new.pass }
    ensures stand { StandIn live.now.sections.now writer.new.cursors.items }
    ensures played { HavePlayed (H.is_pass live.now.hub.now) (H.shape live.now.hub.now) P.known
        sessions.old sessions.new (knows telling.old.pass) (knows telling.new.pass) result }
    ensures wrote { HasWritten K.held K.faults live.now.sections.now
        writer.old writer.new sink.old sink.new }
{
    let ((), played) = join_mut(
        live.rt,
        &mut || -> ()
            requires { IsPassOf live.now.outlet.now writer.now.pass × ((knows writer.now.pass).takes ≡ true) × StandIn live.now.sections.now writer.now.cursors.items }
            ensures { IsPassOf live.entry.now.outlet.now writer.exit.now.pass × StandIn live.entry.now.sections.now writer.exit.now.cursors.items × HasWritten K.held K.faults live.entry.now.sections.now writer.entry.now writer.exit.now sink.entry.now sink.exit.now }
        { write_until(live, writer, sink) },
        &mut || -> Result<(), AllocError>
            requires { IsPassOf live.now.outlet.now telling.now.pass × MayPlay (H.is_pass live.now.hub.now) (H.shape live.now.hub.now) P.known sessions.now (knows telling.now.pass) × IsNoneTold telling.now.told }
            ensures { IsPassOf live.entry.now.outlet.now telling.exit.now.pass × HavePlayed (H.is_pass live.entry.now.hub.now) (H.shape live.entry.now.hub.now) P.known sessions.entry.now sessions.exit.now (knows telling.entry.now.pass) (knows telling.exit.now.pass) result }
        { play_and_end(live, telling, sessions) },
    );
    played
}

// Runs the sessions, and then tells the writer that they are done, also after a refusal.
fn play_and_end<
    P: PassView + Send + Drop,
    H: Hub<Pass = P> + Sync,
    R: Threads + Wait + Clock + Sync,
>(
    live: &Live<'_, R, H>,
    telling: &mut Telling,
    sessions: &mut [Session<P>],
) -> Result<(), AllocError>
    requires own { IsPassOf live.now.outlet.now telling.old.pass }
    requires may { MayPlay (H.is_pass live.now.hub.now) (H.shape live.now.hub.now) P.known
        sessions.old (knows telling.old.pass) }
    requires none { IsNoneTold telling.old.told }
    ensures own { IsPassOf live.now.outlet.now telling.new.pass }
    ensures played { HavePlayed (H.is_pass live.now.hub.now) (H.shape live.now.hub.now) P.known
        sessions.old sessions.new (knows telling.old.pass) (knows telling.new.pass) result }
{
    let played = play(live, telling, sessions);
    live.relay.end();
    played
}

// Runs the sessions, on threads while they can be had.
fn play<P: PassView + Send + Drop, H: Hub<Pass = P> + Sync, R: Threads + Wait + Clock + Sync>(
    live: &Live<'_, R, H>,
    telling: &mut Telling,
    sessions: &mut [Session<P>],
) -> Result<(), AllocError>
    requires own { IsPassOf live.now.outlet.now telling.old.pass }
    requires may { MayPlay (H.is_pass live.now.hub.now) (H.shape live.now.hub.now) P.known
        sessions.old (knows telling.old.pass) }
    requires none { IsNoneTold telling.old.told }
    ensures own { IsPassOf live.now.outlet.now telling.new.pass }
    ensures played { HavePlayed (H.is_pass live.now.hub.now) (H.shape live.now.hub.now) P.known
        sessions.old sessions.new (knows telling.old.pass) (knows telling.new.pass) result }
{
    run(live.rt, live, sessions, telling)
}

// What a run has come to whose writes and whose sessions have come to this.
fn answer(so_far: Result<(), Failed>, played: Result<(), AllocError>) -> Result<(), LiveFault>
    ensures { result ≡ answer_of so_far played }
{
    match (so_far, played) {
        (Err(_), _) => Err(LiveFault::Write),
        (Ok(()), Err(_)) => Err(LiveFault::Memory),
        (Ok(()), Ok(())) => Ok(()),
    }
}

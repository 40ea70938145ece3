ghost use Rattle.std.specs.Prelude.{◌≡◌, ◌⊎◌, ◌<◌, ◌≤◌, ◌++◌, map, drop, length, IfOk, All};
ghost use Rattle.std.specs.List.{range_with_len};
ghost use Rattle.std.specs.Io.KnownBytes.{Appends};
ghost use Rattle.pgn_base.specs.declared.limits.TheConstants.{PAGES_MIN, PAGES_MAX};
ghost use Rattle.pgn_base.specs.Outside.{AppendsPrefix, HasCause, Rose, Writes};
ghost use Rattle.pgn_language.specs.Inputs.{IsSound};
ghost use Rattle.pgn_model.specs.Text.{joined, journal_lines};
ghost use Rattle.pgn_live.specs.Lives.{tagged};
ghost use Rattle.pgn_text.specs.Rendering.{Puts, ends_lines};
ghost use Rattle.pgn_session.specs.Runs.{IsOver};
ghost use Rattle.pgn_run.specs.Live.{EarlyOver, EndsOver, LiveOver, SoFarOver, counts_of, end_text, lasts};
ghost use Rattle.pgn_run.specs.Run.{HasWritten, settings_of};

use crate::{RunSettings, Status};
use pgn_base::{Failed, Sink};
use pgn_hub::{Hub, PassView};
use pgn_journal::Tx;
use pgn_language::{Scenario, Section};
use pgn_live::{LiveFault, run_live, write_items};
use pgn_model::{Item, Trace};
use pgn_service::Means;
use pgn_session::Session;
use pgn_text::Out;
use pgn_threads::{Run, finish_run, open_on_hub};
use std::alloc::{AllocError, Global};
use std::sync::Wait;
use std::thread::Threads;
use std::time::Clock;

/// Runs a scenario as `run_scenario` does, and writes each line of each session as it comes, behind the session's number; then the
/// journal, and where each session ended.
pub fn run_scenario_live<
    P: PassView + Send + Drop,
    H: Hub<Pass = P> + Sync + Drop,
    K: Sink + Send,
    R: Threads + Wait + Clock + Sync,
>(means: &Means<'_, R>, scenario: &Scenario, settings: RunSettings, sink: &mut K) -> Status
    requires sound { IsSound scenario.now }
    requires some_pages { PAGES_MIN ≤ settings.pages }
    requires few_pages { settings.pages ≤ PAGES_MAX }
    requires patient { 1 ≤ settings.patience }
    ensures done { result ≡ Status.Done
        → LiveOver scenario.now (settings_of settings)
        (Appends (K.held sink.old) (K.held sink.new)) }
    ensures write_fault { result ≡ Status.WriteFault
        → Rose (K.faults sink.old) (K.faults sink.new) }
    ensures write_fault_where_due { K.faults sink.old < K.faults sink.new
        → result ≡ Status.WriteFault }
    ensures write_fault_writes_a_prefix { result ≡ Status.WriteFault
        → LiveOver scenario.now (settings_of settings)
        (AppendsPrefix (K.held sink.old) (K.held sink.new))
        ⊎ EarlyOver scenario.now (settings_of settings)
        (AppendsPrefix (K.held sink.old) (K.held sink.new)) }
    ensures no_memory_writes_first_lines { result ≡ Status.NoMemory
        → (K.held sink.new ≡ K.held sink.old)
        ⊎ SoFarOver scenario.now (settings_of settings)
        (Appends (K.held sink.old) (K.held sink.new)) }
    ensures only { (result ≡ Status.Done) ⊎ (result ≡ Status.WriteFault)
        ⊎ (result ≡ Status.NoMemory) }
    ensures later { K.faults sink.old ≤ K.faults sink.new }
{
    let Ok((hub, mut sessions)) = open_on_hub::<H>(
        means.alloc,
        means.hashes,
        scenario,
        settings.pages,
        settings.patience,
        settings.format,
    ) else {
        return Status::NoMemory;
    };
    let sections = scenario.sections.as_slice();
    match run_live(
        means.rt,
        means.alloc,
        &hub,
        sections,
        sessions.as_mut_slice(),
        sink,
    ) {
        Ok(()) => finish_live(means.alloc, scenario, hub, sessions, sink),
        // Dropped here, by calls: `finish_live` takes them on the other way.
        Err(LiveFault::Write) => {
            drop(sessions);
            drop(hub);
            Status::WriteFault
        }
        Err(LiveFault::Memory) => {
            drop(sessions);
            drop(hub);
            Status::NoMemory
        }
    }
}

// What is written once the sessions are over: what comes last of each, the journal, and where each ended.
fn finish_live<H: Hub + Drop, K: Sink>(
    alloc: Global,
    scenario: &Scenario,
    hub: H,
    sessions: Vec<Session<H::Pass>>,
    sink: &mut K,
) -> Status
    requires over { All (IsOver (H.is_pass hub) (H.shape hub) H.Pass.known) sessions.items }
    requires all { map (λ s. s.section.no) sessions.items ≡ range_with_len 1
        (length (H.shape hub).seats) }
    ensures done { result ≡ Status.Done
        → EndsOver scenario.now (H.shape hub) sessions.items
        (Appends (K.held sink.old) (K.held sink.new)) }
    ensures write_fault { result ≡ Status.WriteFault
        → Rose (K.faults sink.old) (K.faults sink.new) }
    ensures write_fault_where_due { K.faults sink.old < K.faults sink.new
        → result ≡ Status.WriteFault }
    ensures write_fault_writes_a_prefix { result ≡ Status.WriteFault
        → EndsOver scenario.now (H.shape hub) sessions.items
        (AppendsPrefix (K.held sink.old) (K.held sink.new)) }
    ensures no_memory_writes_nothing { result ≡ Status.NoMemory
        → K.held sink.new ≡ K.held sink.old }
    ensures only { (result ≡ Status.Done) ⊎ (result ≡ Status.WriteFault)
        ⊎ (result ≡ Status.NoMemory) }
    ensures later { K.faults sink.old ≤ K.faults sink.new }
{
    let Ok(told) = counts(alloc, sessions.as_slice()) else {
        drop(sessions);
        drop(hub);
        return Status::NoMemory;
    };
    match finish_run(alloc, hub, sessions) {
        Ok((played, sections)) => {
            let status = write_end(scenario, told.as_slice(), &played, sink);
            drop(told);
            drop(played);
            drop(sections);
            status
        }
        Err(_) => {
            drop(told);
            Status::NoMemory
        }
    }
}

// How many items each session has shown.
fn counts<P: PassView + Drop>(
    alloc: Global,
    sessions: &[Session<P>],
) -> Result<Vec<usize>, AllocError>
    ensures { IfOk result (λ counts. counts.items ≡ counts_of sessions.now) }
{
    let mut counts = Vec::with_capacity(alloc, sessions.len())?;
    for session in sessions {
        counts.push(session.items.as_slice().len())?;
    }
    Ok(counts)
}

// Writes what comes last of each session, behind the items that were told of it, the journal, and where each session ended.
fn write_end<K: Sink>(scenario: &Scenario, told: &[usize], run: &Run, sink: &mut K) -> Status
    ensures written { HasWritten
        (tagged scenario.now.sections (lasts told.now run.now.traces.items) ++ end_text scenario.now
        run.now.journal.items run.now.traces.items) (K.held sink.old) (K.held sink.new)
        (K.faults sink.old) (K.faults sink.new) result }
    ensures later { K.faults sink.old ≤ K.faults sink.new }
    ensures rose { K.faults sink.old < K.faults sink.new → result ≡ Status.WriteFault }
{
    let journal = run.journal.as_slice();
    match put_end(
        sink,
        scenario.sections.as_slice(),
        told,
        journal,
        run.traces.as_slice(),
    ) {
        Ok(()) => Status::Done,
        Err(_) => Status::WriteFault,
    }
}

// The same of these sections.
fn put_end<K: Sink>(
    sink: &mut K,
    sections: &[Section],
    told: &[usize],
    journal: &[Tx],
    traces: &[Trace],
) -> Result<(), Failed>
    ensures bytes { Writes (K.held sink.old) (K.held sink.new) result
        (tagged sections.now (lasts told.now traces.now) ++ joined
        (journal_lines journal.now ++ ends_lines sections.now traces.now)) }
    ensures cause { HasCause (K.faults sink.old) (K.faults sink.new) result }
{
    let mut out = Out::new();
    put_lasts(sink, &mut out, sections, told, traces);
    out.journal(sink, journal);
    out.ends(sink, sections, traces);
    out.send(sink);
    out.so_far
}

// What comes last of each session.
fn put_lasts<K: Sink>(
    sink: &mut K,
    out: &mut Out,
    sections: &[Section],
    told: &[usize],
    traces: &[Trace],
)
    ensures { Puts K.held K.faults sink.old out.old sink.new out.new
        (tagged sections.now (lasts told.now traces.now)) }
{
    let count = told.len().min(traces.len());
    for i in 0..count {
        let trace = &traces[i];
        write_items(
            sink,
            out,
            sections,
            trace.session,
            behind(trace.items.as_slice(), told[i]),
        );
    }
}

// The items behind so many.
fn behind(items: &[Item], count: usize) -> &[Item]
    ensures { result.now ≡ drop count items.now }
{
    if items.len() <= count {
        return &[];
    }
    &items[count..]
}

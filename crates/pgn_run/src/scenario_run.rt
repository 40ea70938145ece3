ghost use Rattle.std.specs.Prelude.{◌≡◌, ◌⊎◌, ◌<◌, ◌≤◌};
ghost use Rattle.std.specs.Io.KnownBytes.{Appends};
ghost use Rattle.pgn_base.specs.declared.limits.TheConstants.{PAGES_MIN, PAGES_MAX};
ghost use Rattle.pgn_base.specs.Outside.{AppendsPrefix, Rose};
ghost use Rattle.pgn_language.specs.Inputs.{IsSound};
ghost use Rattle.pgn_model.specs.Text.{brief, text};
ghost use Rattle.pgn_run.specs.Run.{RunsOver, HasWritten, printed, settings_of};

use crate::{Print, RunSettings, Status};
use pgn_base::{Failed, Sink};
use pgn_drill::{received, summary};
use pgn_hub::{Hub, PassView};
use pgn_language::Scenario;
use pgn_service::Means;
use pgn_text::render;
use pgn_threads::{Run, run_on_hub};
use std::mem;
use std::sync::Wait;
use std::thread::Threads;
use std::time::Clock;

/// Runs a scenario over a hub of this type with these settings, its sessions side by side, and writes what is asked for of the run to the
/// sink. Neither the scenario nor the run is freed: the program ends with this answer, and to free them piece by piece is no small part
/// of it.
pub fn run_scenario<
    P: PassView + Send + Drop,
    H: Hub<Pass = P> + Sync + Drop,
    K: Sink,
    R: Threads + Wait + Clock + Sync,
>(
    means: &Means<'_, R>,
    scenario: Scenario,
    settings: RunSettings,
    print: Print,
    sink: &mut K,
) -> Status
    requires sound { IsSound scenario }
    requires some_pages { PAGES_MIN ≤ settings.pages }
    requires few_pages { settings.pages ≤ PAGES_MAX }
    requires patient { 1 ≤ settings.patience }
    ensures done { result ≡ Status.Done
        → RunsOver print scenario (settings_of settings)
        (Appends (K.held sink.old) (K.held sink.new)) }
    ensures write_fault { result ≡ Status.WriteFault
        → Rose (K.faults sink.old) (K.faults sink.new) }
    ensures write_fault_where_due { K.faults sink.old < K.faults sink.new
        → result ≡ Status.WriteFault }
    ensures write_fault_writes_a_prefix { result ≡ Status.WriteFault
        → RunsOver print scenario (settings_of settings)
        (AppendsPrefix (K.held sink.old) (K.held sink.new)) }
    ensures no_memory_writes_nothing { result ≡ Status.NoMemory
        → K.held sink.new ≡ K.held sink.old }
    ensures only { (result ≡ Status.Done) ⊎ (result ≡ Status.WriteFault)
        ⊎ (result ≡ Status.NoMemory) }
    ensures later { K.faults sink.old ≤ K.faults sink.new }
{
    match run_on_hub::<_, H, R>(
        means.rt,
        means.alloc,
        means.hashes,
        scenario,
        settings.pages,
        settings.patience,
        settings.format,
    ) {
        Ok((scenario, played)) => {
            let status = write_run(&scenario, print, &played, sink);
            mem::forget(played);
            mem::forget(scenario);
            status
        }
        Err(_) => Status::NoMemory,
    }
}

// Writes what is asked for of a run.
fn write_run<K: Sink>(scenario: &Scenario, print: Print, run: &Run, sink: &mut K) -> Status
    ensures written { HasWritten
        (printed print scenario.now run.now.journal.items run.now.traces.items) (K.held sink.old)
        (K.held sink.new) (K.faults sink.old) (K.faults sink.new) result }
    ensures later { K.faults sink.old ≤ K.faults sink.new }
    ensures rose { K.faults sink.old < K.faults sink.new → result ≡ Status.WriteFault }
{
    match print {
        Print::Text => write_text(scenario, run, sink),
        Print::Summary { seed, notes } => write_summary(seed, notes, run, sink),
    }
}

// Writes the text of a run.
fn write_text<K: Sink>(scenario: &Scenario, run: &Run, sink: &mut K) -> Status
    ensures written { HasWritten (text scenario.now run.now.journal.items run.now.traces.items)
        (K.held sink.old) (K.held sink.new) (K.faults sink.old) (K.faults sink.new) result }
    ensures later { K.faults sink.old ≤ K.faults sink.new }
    ensures rose { K.faults sink.old < K.faults sink.new → result ≡ Status.WriteFault }
{
    let journal = run.journal.as_slice();
    match render(sink, scenario, journal, run.traces.as_slice()) {
        Ok(()) => Status::Done,
        Err(_) => Status::WriteFault,
    }
}

// Writes the summary of a run. More deliveries than the summary can count no memory can hold.
fn write_summary<K: Sink>(seed: u64, notes: u32, run: &Run, sink: &mut K) -> Status
    ensures written { HasWritten (brief seed notes run.now.journal.items run.now.traces.items)
        (K.held sink.old) (K.held sink.new) (K.faults sink.old) (K.faults sink.new) result }
    ensures later { K.faults sink.old ≤ K.faults sink.new }
    ensures rose { K.faults sink.old < K.faults sink.new → result ≡ Status.WriteFault }
{
    let traces = run.traces.as_slice();
    if received(traces).is_none() {
        return Status::NoMemory;
    }
    match summary(sink, seed, notes, run.journal.as_slice(), traces) {
        Ok(()) => Status::Done,
        Err(Failed) => Status::WriteFault,
    }
}

ghost use Rattle.std.specs.Prelude.{◌≡◌, ◌⊎◌, ℕ, ◌<◌, ◌≤◌, ◌+◌, List, map, take, Ok, Err, None, Some, IfOk, IfSome, OnSome, IsSomeAnd};
ghost use Rattle.std.specs.Io.KnownBytes.{Appends, Consumes, IsAtEnd};
ghost use Rattle.pgn_base.specs.Outside.{AppendsPrefix, Rose};
ghost use Rattle.pgn_base.specs.declared.limits.TheConstants.{PAGES_MAX, PAGES_MIN};
ghost use Rattle.pgn_language.specs.declared.scenario.Scenario.{Scenario};
ghost use Rattle.pgn_language.specs.declared.scenario.ScenarioFault.{ScenarioFault};
ghost use Rattle.pgn_language.specs.Inputs.{IsSound, ReadsAsScenario};
ghost use Rattle.pgn_options.specs.declared.limits.TheConstants.{DRILL_NOTES_MAX, DRILL_SESSIONS_MAX};
ghost use Rattle.pgn_options.specs.Words.{AreNoCommand, IsWithin};
ghost use Rattle.pgn_drill.specs.Drill.{drill};
ghost use Rattle.pgn_check.specs.declared.check.Verdict.TheVariants as verdict;
ghost use Rattle.pgn_queries.specs.declared.wire_fault.WireFault.{WireFault};
ghost use Rattle.pgn_wire.specs.Serving.{WroteWhole};
ghost use Rattle.pgn_frames.specs.declared.frame_fault.FrameFault.{FrameFault};
ghost use Rattle.pgn_run.specs.Calls.{Performed, RunEnds};
ghost use Rattle.pgn_service.specs.Service.{ServesAll, ServesFirst, StopsServing};
ghost use Rattle.pgn_run.specs.Checking.{HasFault, HasNoOutput, IsJudged, IsTooLarge, verdict_text};
ghost use Rattle.pgn_service.specs.Conversation.{BreaksOff, StopsAmong, StopsBetween};
ghost use Rattle.pgn_run.specs.declared.print.Print.TheVariants.{Summary};
ghost use Rattle.pgn_run.specs.Run.{Answers, AskToCheck, AskToDrill, AskToRun, AskToRunLive, AskToServe, AskToWire, EndsIn, HasFrames, HasRead, Performs, PerformsInPart, Runs, SoFarRuns, asked_settings, drill_settings, settings_of, settings_with, shows_if};

use crate::checking::{CHECK_BYTES_MAX, check};
use crate::print::Shows;
use crate::serve::serve;
use crate::wire::wire;
use crate::{Print, RunSettings, Status, run_scenario, run_scenario_live};
use pgn_base::{Format, INPUT_BYTES_MAX, PAGES_MAX, Seed, Sink, Source};
use pgn_drill::drill_text;
use pgn_hub::{Hub, PassView};
use pgn_language::Scenario;
use pgn_options::{Asked, PATIENCE_MAX, WordsFault, read_words};
use pgn_scenario::{Unread, read_input, read_scenario};
use pgn_service::Means;
use pgn_wordhub::WordHub;
use std::alloc::{AllocError, Global};
use std::mem;
use std::sync::Wait;
use std::thread::Threads;
use std::time::Clock;

// How many bytes of an input are read at most: one more than an input may have.
const READ_LIMIT: usize = INPUT_BYTES_MAX + 1;

/// Does all that the program does between its words and its exit status. `words` are those after the program's name. `run` reads a scenario
/// from the source, runs its sessions side by side, and writes the journal and what each session was answered and received to the sink.
/// `drill` reads nothing: it makes a scenario, runs it the same way, and writes the summary. `wire` answers each query that it reads, as a
/// server of PostgreSQL does after start-up, before it reads the next. `serve` serves the clients of many seats at once on one queue, whose
/// frames it reads and writes. `check` reads a scenario and an output text, and writes whether this
/// is the output of a legal run of it, or which line is the first to blame. Hashes are made with the seed, on which nothing that stands
/// here depends. Sessions may wait for one another, so that it is not promised
/// that the call returns; what stands here holds where it does.
pub fn run_notify<'a, S: Source, K: Sink + Send, R: Threads + Wait + Clock + Sync>(
    rt: &R,
    alloc: Global,
    hashes: Seed,
    words: &'a [&'a str],
    source: &mut S,
    sink: &mut K,
) -> Status
    // The headline: what was left reads as a scenario, and the text of a legal run of it was written; or the summary of a drill; or what
    // was left are the queries of a client, and the messages of a legal run of them were written; or frames of the clients of seats, there
    // is a legal run of what they asked, and each was told what its seat's trace says, whole and in order; or it is a scenario with the
    // output of a legal run of it, and that was said.
    ensures done { result ≡ Status.Done
        → Performs (map (λ word. word.now) words.now) (S.left source.old)
        (Appends (K.held sink.old) (K.held sink.new)) }
    ensures done_reads_all { AskToRun (map (λ word. word.now) words.now) → result ≡ Status.Done
        → OnSome (S.left source.old) (IsAtEnd (S.left source.new)) }

    ensures bad_words { result ≡ Status.BadWords → AreNoCommand (map (λ word. word.now) words.now) }
    ensures bad_words_where_due { AreNoCommand (map (λ word. word.now) words.now)
        → (result ≡ Status.BadWords) ⊎ (result ≡ Status.NoMemory) }
    ensures bad_words_read_nothing { AreNoCommand (map (λ word. word.now) words.now)
        → source.new ≡ source.old }
    ensures bad_words_write_nothing { AreNoCommand (map (λ word. word.now) words.now)
        → sink.new ≡ sink.old }

    ensures bad_scenario { (fault : ScenarioFault) → result ≡ Status.BadScenario fault
        → (AskToRun (map (λ word. word.now) words.now)
        × IfSome (S.left source.old) (λ input. ReadsAsScenario input (Err fault)))
        ⊎ (AskToCheck (map (λ word. word.now) words.now)
        × IfSome (S.left source.old) (λ input. HasFault input fault)) }
    ensures bad_scenario_where_due { (fault : ScenarioFault)
        → AskToRun (map (λ word. word.now) words.now)
        → IsSomeAnd (S.left source.old) (λ input. ReadsAsScenario input (Err fault))
        → ¬ Rose (S.faults source.old) (S.faults source.new)
        → (result ≡ Status.BadScenario fault) ⊎ (result ≡ Status.NoMemory) }
    ensures bad_scenario_where_checked { (fault : ScenarioFault)
        → AskToCheck (map (λ word. word.now) words.now)
        → IsSomeAnd (S.left source.old) (λ input. HasFault input fault)
        → ¬ Rose (S.faults source.old) (S.faults source.new)
        → (result ≡ Status.BadScenario fault) ⊎ (result ≡ Status.NoMemory) }
    ensures bad_scenario_writes_nothing { (fault : ScenarioFault)
        → result ≡ Status.BadScenario fault → K.held sink.new ≡ K.held sink.old }

    // The output text is none of a legal run, this line is the first to blame, and that was written.
    ensures illegal { (line : ℕ) → result ≡ Status.Illegal line
        → (ask : AskToCheck (map (λ word. word.now) words.now))
        × IfSome (S.left source.old) (λ input.
        IsJudged (asked_settings ask) input (verdict.Illegal line)
        × Appends (K.held sink.old) (K.held sink.new)
        (verdict_text (verdict.Illegal line))) }
    ensures illegal_where_due { (line : ℕ) (ask : AskToCheck (map (λ word. word.now) words.now))
        → IsSomeAnd (S.left source.old) (λ input.
        IsJudged (asked_settings ask) input (verdict.Illegal line))
        → ¬ Rose (S.faults source.old) (S.faults source.new)
        → ¬ Rose (K.faults sink.old) (K.faults sink.new)
        → (result ≡ Status.Illegal line) ⊎ (result ≡ Status.NoMemory) }

    ensures no_output { result ≡ Status.NoOutput
        → AskToCheck (map (λ word. word.now) words.now) × IfSome (S.left source.old) HasNoOutput }
    ensures no_output_where_due { AskToCheck (map (λ word. word.now) words.now)
        → IsSomeAnd (S.left source.old) HasNoOutput
        → ¬ Rose (S.faults source.old) (S.faults source.new)
        → (result ≡ Status.NoOutput) ⊎ (result ≡ Status.NoMemory) }
    ensures no_output_writes_nothing { result ≡ Status.NoOutput
        → K.held sink.new ≡ K.held sink.old }

    ensures check_too_large { result ≡ Status.CheckTooLarge
        → AskToCheck (map (λ word. word.now) words.now) × IfSome (S.left source.old) IsTooLarge }
    ensures check_too_large_where_due { AskToCheck (map (λ word. word.now) words.now)
        → IsSomeAnd (S.left source.old) IsTooLarge
        → ¬ Rose (S.faults source.old) (S.faults source.new)
        → (result ≡ Status.CheckTooLarge) ⊎ (result ≡ Status.NoMemory) }
    ensures check_too_large_writes_nothing { result ≡ Status.CheckTooLarge
        → K.held sink.new ≡ K.held sink.old }

    ensures read_fault { result ≡ Status.ReadFault
        → (AskToRun (map (λ word. word.now) words.now)
        ⊎ AskToWire (map (λ word. word.now) words.now)
        ⊎ AskToCheck (map (λ word. word.now) words.now)
        ⊎ AskToServe (map (λ word. word.now) words.now))
        × Rose (S.faults source.old) (S.faults source.new) }
    ensures read_fault_where_due { ¬ AskToServe (map (λ word. word.now) words.now)
        → S.faults source.old < S.faults source.new → result ≡ Status.ReadFault }
    // Of a service both a read and a write may fail in one run.
    ensures read_fault_where_served { AskToServe (map (λ word. word.now) words.now)
        → S.faults source.old < S.faults source.new
        → (result ≡ Status.ReadFault) ⊎ (result ≡ Status.WriteFault) ⊎ (result ≡ Status.NoMemory) }
    ensures read_fault_writes_nothing { ¬ AskToWire (map (λ word. word.now) words.now)
        → ¬ AskToServe (map (λ word. word.now) words.now) → result ≡ Status.ReadFault
        → K.held sink.new ≡ K.held sink.old }
    ensures read_fault_writes_answers { AskToWire (map (λ word. word.now) words.now)
        → result ≡ Status.ReadFault
        → IfSome (S.left source.old) (λ bytes.
        StopsBetween bytes (Appends (K.held sink.old) (K.held sink.new))) }
    ensures read_fault_writes_what_was_told { (ask : AskToServe (map (λ word. word.now) words.now))
        → result ≡ Status.ReadFault
        → IfSome (S.left source.old) (λ bytes.
        ServesFirst ask.seats bytes (Appends (K.held sink.old) (K.held sink.new))) }

    ensures write_fault { result ≡ Status.WriteFault
        → Rose (K.faults sink.old) (K.faults sink.new) }
    ensures write_fault_where_due { K.faults sink.old < K.faults sink.new
        → result ≡ Status.WriteFault }
    ensures write_fault_writes_a_prefix { result ≡ Status.WriteFault
        → PerformsInPart (map (λ word. word.now) words.now) (S.left source.old)
        (AppendsPrefix (K.held sink.old) (K.held sink.new)) }

    ensures no_memory_writes_nothing { ¬ AskToRunLive (map (λ word. word.now) words.now)
        → ¬ AskToWire (map (λ word. word.now) words.now)
        → ¬ AskToServe (map (λ word. word.now) words.now) → result ≡ Status.NoMemory
        → K.held sink.new ≡ K.held sink.old }
    ensures no_memory_writes_first_lines { (ask : AskToRunLive (map (λ word. word.now) words.now))
        → result ≡ Status.NoMemory
        → (K.held sink.new ≡ K.held sink.old)
        ⊎ IfSome (S.left source.old) (λ input.
        SoFarRuns (settings_with ask.pages ask.patience ask.format) input
        (Appends (K.held sink.old) (K.held sink.new))) }
    ensures no_memory_writes_whole_answers { AskToWire (map (λ word. word.now) words.now)
        → result ≡ Status.NoMemory
        → IfSome (S.left source.old) (λ bytes.
        StopsAmong bytes (WroteWhole (K.held sink.old) (K.held sink.new))) }
    ensures no_memory_writes_whole_turns { (ask : AskToServe (map (λ word. word.now) words.now))
        → result ≡ Status.NoMemory
        → (K.held sink.new ≡ K.held sink.old)
        ⊎ IfSome (S.left source.old) (λ bytes.
        StopsServing ask.seats bytes (Appends (K.held sink.old) (K.held sink.new))) }

    // The bytes of a client have this fault, and what it asked before was answered.
    ensures bad_wire { (fault : WireFault) → result ≡ Status.BadWire fault
        → AskToWire (map (λ word. word.now) words.now)
        × IfSome (S.left source.old) (λ bytes.
        BreaksOff bytes fault (Appends (K.held sink.old) (K.held sink.new))) }
    ensures bad_wire_where_due { (fault : WireFault) → AskToWire (map (λ word. word.now) words.now)
        → IsSomeAnd (S.left source.old) (λ bytes. EndsIn bytes (Some fault))
        → ¬ Rose (S.faults source.old) (S.faults source.new)
        → ¬ Rose (K.faults sink.old) (K.faults sink.new)
        → (result ≡ Status.BadWire fault) ⊎ (result ≡ Status.NoMemory) }

    // What was read for the clients of seats has this fault, and all frames before were served.
    ensures bad_frame { (fault : FrameFault) → result ≡ Status.BadFrame fault
        → (ask : AskToServe (map (λ word. word.now) words.now))
        × IfSome (S.left source.old) (λ bytes.
        ServesAll ask.seats bytes (Some fault)
        (Appends (K.held sink.old) (K.held sink.new))) }
    ensures bad_frame_where_due { (fault : FrameFault)
        (ask : AskToServe (map (λ word. word.now) words.now))
        → IsSomeAnd (S.left source.old) (λ bytes. HasFrames ask.seats bytes (Some fault))
        → ¬ Rose (S.faults source.old) (S.faults source.new)
        → ¬ Rose (K.faults sink.old) (K.faults sink.new)
        → (result ≡ Status.BadFrame fault) ⊎ (result ≡ Status.NoMemory) }

    // What was left is what was read and then what is left now; all of it was read, or its first 16,777,217 bytes.
    ensures what_was_read { AskToRun (map (λ word. word.now) words.now) → HasRead result
        → IfSome (S.left source.old) (λ left.
        Consumes (S.left source.old) (S.left source.new) (take (INPUT_BYTES_MAX + 1) left)) }
    // The same of what is checked, or its first 67,108,865 bytes.
    ensures what_was_checked { AskToCheck (map (λ word. word.now) words.now) → HasRead result
        → IfSome (S.left source.old) (λ left.
        Consumes (S.left source.old) (S.left source.new) (take (CHECK_BYTES_MAX + 1) left)) }
    ensures drill_reads_nothing { AskToDrill (map (λ word. word.now) words.now)
        → source.new ≡ source.old }

    ensures complete { (scenario : Scenario) → AskToRun (map (λ word. word.now) words.now)
        → IsSomeAnd (S.left source.old) (λ input. ReadsAsScenario input (Ok scenario))
        → ¬ Rose (S.faults source.old) (S.faults source.new)
        → ¬ Rose (K.faults sink.old) (K.faults sink.new)
        → (result ≡ Status.Done) ⊎ (result ≡ Status.NoMemory) }
    ensures wire_complete { AskToWire (map (λ word. word.now) words.now)
        → IsSomeAnd (S.left source.old) (λ bytes. EndsIn bytes None)
        → ¬ Rose (S.faults source.old) (S.faults source.new)
        → ¬ Rose (K.faults sink.old) (K.faults sink.new)
        → (result ≡ Status.Done) ⊎ (result ≡ Status.NoMemory) }
    ensures serve_complete { (ask : AskToServe (map (λ word. word.now) words.now))
        → IsSomeAnd (S.left source.old) (λ bytes. HasFrames ask.seats bytes None)
        → ¬ Rose (S.faults source.old) (S.faults source.new)
        → ¬ Rose (K.faults sink.old) (K.faults sink.new)
        → (result ≡ Status.Done) ⊎ (result ≡ Status.NoMemory) }
    ensures check_complete { (ask : AskToCheck (map (λ word. word.now) words.now))
        → IsSomeAnd (S.left source.old) (λ input. IsJudged (asked_settings ask) input verdict.Legal)
        → ¬ Rose (S.faults source.old) (S.faults source.new)
        → ¬ Rose (K.faults sink.old) (K.faults sink.new)
        → (result ≡ Status.Done) ⊎ (result ≡ Status.NoMemory) }
    ensures drill_complete { AskToDrill (map (λ word. word.now) words.now)
        → ¬ Rose (K.faults sink.old) (K.faults sink.new)
        → (result ≡ Status.Done) ⊎ (result ≡ Status.NoMemory) }
{
    let asked = read_words(alloc, words);
    let means = Means { rt, alloc, hashes };
    perform::<S, K, R>(&means, asked, source, sink)
}

// Does what words ask for that were read so.
fn perform<S: Source, K: Sink + Send, R: Threads + Wait + Clock + Sync>(
    means: &Means<'_, R>,
    asked: Result<Asked, WordsFault>,
    source: &mut S,
    sink: &mut K,
) -> Status
    requires { IfOk asked IsWithin }
    ensures { Performed S.left S.faults K.held K.faults asked source.old source.new sink.old
        sink.new result }
{
    match asked {
        Ok(
            Asked::Run {
                pages,
                patience,
                format,
                live,
            },
        ) => {
            let settings = RunSettings {
                pages,
                patience,
                format,
            };
            run::<S, K, R>(means, settings, shows_if(live), source, sink)
        }
        Ok(
            Asked::Drill {
                seed,
                sessions,
                notes,
            },
        ) => drill::<K, R>(means, seed, sessions, notes, sink),
        Ok(Asked::Wire) => wire::<R, S, K>(means, source, sink),
        Ok(Asked::Serve { seats }) => serve::<R, S, K>(means, seats, source, sink),
        Ok(
            Asked::Check {
                pages,
                patience,
                format,
            },
        ) => {
            let settings = RunSettings {
                pages,
                patience,
                format,
            };
            check::<S, K>(means.alloc, means.hashes, settings, source, sink)
        }
        Err(WordsFault::BadWords) => Status::BadWords,
        Err(WordsFault::Memory) => Status::NoMemory,
    }
}

// What `run` shows, with `--live` and without.
fn shows_if(live: bool) -> Shows
    ensures { result ≡ shows_if live }
{
    if live {
        Shows::Live
    } else {
        Shows::AtEnd(Print::Text)
    }
}

// Reads a scenario and runs it.
fn run<S: Source, K: Sink + Send, R: Threads + Wait + Clock + Sync>(
    means: &Means<'_, R>,
    settings: RunSettings,
    shows: Shows,
    source: &mut S,
    sink: &mut K,
) -> Status
    requires some_pages { PAGES_MIN ≤ settings.pages }
    requires few_pages { settings.pages ≤ PAGES_MAX }
    requires patient { 1 ≤ settings.patience }
    ensures { RunEnds S.left S.faults K.held K.faults shows (settings_of settings) source.old
        source.new sink.old sink.new result }
{
    match read_input(means.alloc, source, READ_LIMIT) {
        Ok(input) => answer::<K, R>(means, input, settings, shows, sink),
        Err(Unread::Failed) => Status::ReadFault,
        Err(Unread::Memory) => Status::NoMemory,
    }
}

// Makes the scenario of a drill and runs it. A text of so many sessions and notifications reads as a scenario.
fn drill<K: Sink + Send, R: Threads + Wait + Clock + Sync>(
    means: &Means<'_, R>,
    seed: u64,
    sessions: u32,
    notes: u32,
    sink: &mut K,
) -> Status
    requires some_sessions { 1 ≤ sessions }
    requires few_sessions { sessions ≤ DRILL_SESSIONS_MAX }
    requires few_notes { notes ≤ DRILL_NOTES_MAX }
    ensures done { result ≡ Status.Done
        → Runs (Summary seed notes) drill_settings (drill seed sessions notes)
        (Appends (K.held sink.old) (K.held sink.new)) }
    ensures write_fault { result ≡ Status.WriteFault
        → Rose (K.faults sink.old) (K.faults sink.new) }
    ensures write_fault_where_due { K.faults sink.old < K.faults sink.new
        → result ≡ Status.WriteFault }
    ensures write_fault_writes_a_prefix { result ≡ Status.WriteFault
        → Runs (Summary seed notes) drill_settings (drill seed sessions notes)
        (AppendsPrefix (K.held sink.old) (K.held sink.new)) }
    ensures no_memory_writes_nothing { result ≡ Status.NoMemory
        → K.held sink.new ≡ K.held sink.old }
    ensures only { (result ≡ Status.Done) ⊎ (result ≡ Status.WriteFault)
        ⊎ (result ≡ Status.NoMemory) }
{
    let Ok(input) = drill_text(means.alloc, seed, sessions, notes) else {
        return Status::NoMemory;
    };
    let shows = Shows::AtEnd(Print::Summary { seed, notes });
    let settings = RunSettings {
        pages: PAGES_MAX,
        patience: PATIENCE_MAX,
        format: Format::One,
    };
    answer::<K, R>(means, input, settings, shows, sink)
}

// Runs an input that was read, over the word hub, and lets the input go once it is a scenario.
fn answer<K: Sink + Send, R: Threads + Wait + Clock + Sync>(
    means: &Means<'_, R>,
    input: Vec<u8>,
    settings: RunSettings,
    shows: Shows,
    sink: &mut K,
) -> Status
    requires some_pages { PAGES_MIN ≤ settings.pages }
    requires few_pages { settings.pages ≤ PAGES_MAX }
    requires patient { 1 ≤ settings.patience }
    ensures answers { Answers shows (settings_of settings) input.items (K.held sink.old)
        (K.held sink.new) (K.faults sink.old) (K.faults sink.new) result }
    ensures later { K.faults sink.old ≤ K.faults sink.new }
    ensures rose { K.faults sink.old < K.faults sink.new → result ≡ Status.WriteFault }
{
    let reading = read_scenario(means.alloc, means.hashes, input.as_slice());
    drop(input);
    match reading {
        Ok(Ok(scenario)) => play::<_, WordHub, K, R>(means, scenario, settings, shows, sink),
        Ok(Err(fault)) => Status::BadScenario(fault),
        Err(AllocError) => Status::NoMemory,
    }
}

// Runs a scenario and shows what is asked for, at the end or as it comes. It is not freed, as `run_scenario` has it.
fn play<
    P: PassView + Send + Drop,
    H: Hub<Pass = P> + Sync + Drop,
    K: Sink + Send,
    R: Threads + Wait + Clock + Sync,
>(
    means: &Means<'_, R>,
    scenario: Scenario,
    settings: RunSettings,
    shows: Shows,
    sink: &mut K,
) -> Status
    requires sound { IsSound scenario }
    requires some_pages { PAGES_MIN ≤ settings.pages }
    requires few_pages { settings.pages ≤ PAGES_MAX }
    requires patient { 1 ≤ settings.patience }
    ensures answers { (input : List ℕ) → ReadsAsScenario input (Ok scenario)
        → Answers shows (settings_of settings) input (K.held sink.old) (K.held sink.new)
        (K.faults sink.old) (K.faults sink.new) result }
    ensures later { K.faults sink.old ≤ K.faults sink.new }
    ensures rose { K.faults sink.old < K.faults sink.new → result ≡ Status.WriteFault }
{
    match shows {
        Shows::AtEnd(print) => {
            run_scenario::<_, H, K, R>(means, scenario, settings, print, sink)
        }
        Shows::Live => {
            let status = run_scenario_live::<_, H, K, R>(means, &scenario, settings, sink);
            mem::forget(scenario);
            status
        }
    }
}

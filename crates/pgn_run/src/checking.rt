ghost use Rattle.std.specs.Prelude.{◌≡◌, ◌≢◌, ◌<◌, ◌≤◌, ◌+◌, length, take, Err, IfOk, IfErr, IfSome};
ghost use Rattle.std.specs.Io.KnownBytes.{Consumes};
ghost use Rattle.pgn_base.specs.Outside.{HasCause, Rose, Writes};
ghost use Rattle.pgn_language.specs.Inputs.{ReadsAsScenario};
ghost use Rattle.pgn_run.specs.Checking.{AnswersCheck, HasTold, IsOfCheck, IsUntold, IsVerdictOn, status_of, verdict_text};
ghost use Rattle.pgn_run.specs.Run.{HasRead, settings_of};

use crate::parting::parts;
use crate::{RunSettings, Status};
use pgn_base::{Failed, Seed, Sink, Source, write_all};
use pgn_check::{Verdict, check_output};
use pgn_language::ScenarioFault;
use pgn_scenario::{Unread, read_input, read_scenario};
use pgn_text::Out;
use std::alloc::{AllocError, Global};
use std::mem;

/// The most bytes of an input of `check`.
pub const CHECK_BYTES_MAX: usize = 67_108_864;

// How many bytes of it are read at most: one more than it may have.
const CHECK_READ_LIMIT: usize = CHECK_BYTES_MAX + 1;

// Reads a scenario and an output text, and writes whether this is the output of a legal run of it. What was read is not freed: the
// program ends with this answer.
pub(crate) fn check<S: Source, K: Sink>(
    alloc: Global,
    hashes: Seed,
    settings: RunSettings,
    source: &mut S,
    sink: &mut K,
) -> Status
    ensures answers { IfSome (S.left source.old) (λ input.
        AnswersCheck (settings_of settings) input (K.held sink.old) (K.held sink.new)
        (K.faults sink.old) (K.faults sink.new) result) }
    ensures own { IsOfCheck result }
    ensures what_was_read { HasRead result → IfSome (S.left source.old) (λ left.
        Consumes (S.left source.old) (S.left source.new) (take (CHECK_BYTES_MAX + 1) left)) }
    ensures nothing { IsUntold result → K.held sink.new ≡ K.held sink.old }
    ensures read_fault { result ≡ Status.ReadFault
        → Rose (S.faults source.old) (S.faults source.new) }
    ensures read_fault_where_due { S.faults source.old < S.faults source.new
        → result ≡ Status.ReadFault }
    ensures write_fault { result ≡ Status.WriteFault
        → Rose (K.faults sink.old) (K.faults sink.new) }
    ensures write_fault_where_due { K.faults sink.old < K.faults sink.new
        → result ≡ Status.WriteFault }
{
    match read_input(alloc, source, CHECK_READ_LIMIT) {
        Ok(input) => {
            let status = judge(alloc, hashes, input.as_slice(), settings, sink);
            mem::forget(input);
            status
        }
        Err(Unread::Failed) => Status::ReadFault,
        Err(Unread::Memory) => Status::NoMemory,
    }
}

// Tells of an input that was read whether its output text is that of a legal run.
fn judge<K: Sink>(
    alloc: Global,
    hashes: Seed,
    input: &[u8],
    settings: RunSettings,
    sink: &mut K,
) -> Status
    ensures answers { AnswersCheck (settings_of settings) input.now (K.held sink.old)
        (K.held sink.new) (K.faults sink.old) (K.faults sink.new) result }
    ensures read { result ≢ Status.ReadFault }
    ensures later { K.faults sink.old ≤ K.faults sink.new }
    ensures rose { K.faults sink.old < K.faults sink.new → result ≡ Status.WriteFault }
{
    if input.len() > CHECK_BYTES_MAX {
        return Status::CheckTooLarge;
    }
    let Some((scenario, output)) = parts(input) else {
        return Status::NoOutput;
    };
    match verdict_on(alloc, hashes, scenario, output, settings) {
        Ok(Ok(verdict)) => tell(verdict, sink),
        Ok(Err(fault)) => Status::BadScenario(fault),
        Err(AllocError) => Status::NoMemory,
    }
}

// The verdict on an output text, or why what should be its scenario is none. The scenario is not freed: the program ends with this
// answer.
fn verdict_on(
    alloc: Global,
    hashes: Seed,
    scenario: &[u8],
    output: &[u8],
    settings: RunSettings,
) -> Result<Result<Verdict, ScenarioFault>, AllocError>
    requires few { length output.now ≤ CHECK_BYTES_MAX }
    ensures given { IfOk result (λ given.
        IfOk given (IsVerdictOn (settings_of settings) scenario.now output.now)) }
    ensures fault { IfOk result (λ given.
        IfErr given (λ fault. ReadsAsScenario scenario.now (Err fault))) }
{
    match read_scenario(alloc, hashes, scenario)? {
        Ok(scenario) => {
            let given = check_output(
                alloc,
                hashes,
                &scenario,
                settings.pages,
                settings.patience,
                settings.format,
                output,
            )?;
            mem::forget(scenario);
            Ok(Ok(given))
        }
        Err(fault) => Ok(Err(fault)),
    }
}

// Writes a verdict.
fn tell<K: Sink>(verdict: Verdict, sink: &mut K) -> Status
    ensures told { HasTold verdict (K.held sink.old) (K.held sink.new) (K.faults sink.old)
        (K.faults sink.new) result }
    ensures later { K.faults sink.old ≤ K.faults sink.new }
    ensures rose { K.faults sink.old < K.faults sink.new → result ≡ Status.WriteFault }
{
    match verdict_line(verdict, sink) {
        Ok(()) => status_of(verdict),
        Err(Failed) => Status::WriteFault,
    }
}

fn verdict_line<K: Sink>(verdict: Verdict, sink: &mut K) -> Result<(), Failed>
    ensures bytes { Writes (K.held sink.old) (K.held sink.new) result (verdict_text verdict) }
    ensures cause { HasCause (K.faults sink.old) (K.faults sink.new) result }
{
    match verdict {
        Verdict::Legal => write_all(sink, b"legal\n"),
        Verdict::Illegal { line } => illegal_line(line, sink),
    }
}

fn illegal_line<K: Sink>(line: usize, sink: &mut K) -> Result<(), Failed>
    ensures bytes { Writes (K.held sink.old) (K.held sink.new) result
        (verdict_text (Verdict.Illegal line)) }
    ensures cause { HasCause (K.faults sink.old) (K.faults sink.new) result }
{
    let mut out = Out::new();
    out.text(sink, b"illegal line ");
    out.number(sink, line as u64);
    out.text(sink, b"\n");
    out.send(sink);
    out.so_far
}

// How `check` ends with a verdict that was written.
fn status_of(verdict: Verdict) -> Status
    ensures { result ≡ status_of verdict }
{
    match verdict {
        Verdict::Legal => Status::Done,
        Verdict::Illegal { line } => Status::Illegal { line },
    }
}

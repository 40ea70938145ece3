ghost use Rattle.std.specs.Prelude.{◌≡◌, ◌≢◌, ◌⊎◌, ◌<◌, map, string_bytes, Ok, Err, IfOk, IfSome, IsOkAnd};
ghost use Rattle.std.specs.Io.KnownBytes.{Appends};
ghost use Rattle.pgn_base.specs.Outside.{AppendsPrefix, Rose};
ghost use Rattle.pgn_options.specs.Words.{AreNoCommand};
ghost use Rattle.pgn_wire.specs.Serving.{WroteWhole};
ghost use Rattle.pgn_run.specs.Checking.{HasNoOutput, IsTooLarge};
ghost use Rattle.pgn_service.specs.Conversation.{StopsAmong, StopsBetween};
ghost use Rattle.pgn_run.specs.Run.{AskToCheck, AskToRunLive, AskToServe, AskToWire, Performs, PerformsInPart, SoFarRuns, asked_settings, settings_with};
ghost use Rattle.pgn_cli.specs.Program.{Comes, Ends, NamesFault, NamesWireFault, SaysBadFrame, SaysIllegal, ServedFirst, ServedInPart, texts_of};

use crate::arguments::NoWords;
use crate::fault_line::fault_line;
use pgn_base::{Sink, Source};
use pgn_run::{Status, run_notify};
use pgn_service::Means;
use std::alloc::{AllocError, Global};
use std::sync::Wait;
use std::thread::Threads;
use std::time::Clock;

/// All that the program does once it has its words: it calls `run_notify` over these words, and writes one line to `errors`
/// where the run is not done. The result is the exit status. Sessions may wait for one another, so that it is not promised that the
/// call returns.
pub fn program<S: Source, K: Sink + Send, E: Sink, R: Threads + Wait + Clock + Sync>(
    means: &Means<'_, R>,
    words: Result<Vec<String>, NoWords>,
    source: &mut S,
    sink: &mut K,
    errors: &mut E,
) -> u8
    ensures ends { Ends result (E.held errors.old) (E.held errors.new) (E.faults errors.old)
        (E.faults errors.new) }
    ensures done { result ≡ 0
        → IsOkAnd words (λ words.
        Performs (map string_bytes words.items) (S.left source.old)
        (Appends (K.held sink.old) (K.held sink.new))) }
    ensures bad_scenario { result ≡ 3
        → IfSome (S.left source.old) (NamesFault (E.held errors.old) (E.held errors.new)) }
    ensures bad_wire { result ≡ 10
        → IsOkAnd words (λ words. AskToWire (map string_bytes words.items))
        × IfSome (S.left source.old)
        (NamesWireFault (K.held sink.old) (K.held sink.new) (E.held errors.old)
        (E.held errors.new)) }
    ensures bad_frame { result ≡ 12
        → IsOkAnd words (λ words.
        SaysBadFrame (map string_bytes words.items) (S.left source.old) (K.held sink.old)
        (K.held sink.new) (E.held errors.old) (E.held errors.new)) }
    ensures illegal { result ≡ 8
        → IsOkAnd words (λ words.
        (ask : AskToCheck (map string_bytes words.items))
        × IfSome (S.left source.old)
        (SaysIllegal (asked_settings ask) (K.held sink.old) (K.held sink.new))) }
    ensures no_output { result ≡ 9
        → IsOkAnd words (λ words. AskToCheck (map string_bytes words.items))
        × IfSome (S.left source.old) HasNoOutput }
    ensures check_too_large { result ≡ 11
        → IsOkAnd words (λ words. AskToCheck (map string_bytes words.items))
        × IfSome (S.left source.old) IsTooLarge }
    ensures read_fault { result ≡ 4 → Rose (S.faults source.old) (S.faults source.new) }
    ensures read_fault_where_due { IfOk words (λ words. ¬ AskToServe (map string_bytes words.items))
        → S.faults source.old < S.faults source.new → result ≡ 4 }
    ensures read_fault_where_served { IfOk words (λ words.
        AskToServe (map string_bytes words.items) → S.faults source.old < S.faults source.new
        → (result ≡ 4) ⊎ (result ≡ 5) ⊎ (result ≡ 6)) }
    ensures write_fault { result ≡ 5 → Rose (K.faults sink.old) (K.faults sink.new) }
    ensures write_fault_where_due { K.faults sink.old < K.faults sink.new → result ≡ 5 }
    ensures write_fault_writes_a_prefix { result ≡ 5
        → IsOkAnd words (λ words.
        PerformsInPart (map string_bytes words.items) (S.left source.old)
        (AppendsPrefix (K.held sink.old) (K.held sink.new))) }
    ensures refused_writes_nothing { (result ≡ 2) ⊎ (result ≡ 3) ⊎ (result ≡ 9) ⊎ (result ≡ 11)
        → K.held sink.new ≡ K.held sink.old }
    ensures read_fault_writes_nothing { IfOk words (λ words.
        ¬ AskToWire (map string_bytes words.items))
        → IfOk words (λ words. ¬ AskToServe (map string_bytes words.items)) → result ≡ 4
        → K.held sink.new ≡ K.held sink.old }
    ensures read_fault_writes_answers { IfOk words (λ words.
        AskToWire (map string_bytes words.items) → result ≡ 4
        → IfSome (S.left source.old) (λ bytes.
        StopsBetween bytes (Appends (K.held sink.old) (K.held sink.new)))) }
    ensures read_fault_writes_what_was_told { IfOk words (λ words.
        result ≡ 4
        → ServedFirst (map string_bytes words.items) (S.left source.old) (K.held sink.old)
        (K.held sink.new)) }
    ensures no_memory_writes_nothing { IfOk words (λ words.
        ¬ AskToRunLive (map string_bytes words.items))
        → IfOk words (λ words. ¬ AskToWire (map string_bytes words.items))
        → IfOk words (λ words. ¬ AskToServe (map string_bytes words.items)) → result ≡ 6
        → K.held sink.new ≡ K.held sink.old }
    ensures no_memory_writes_first_lines { IfOk words (λ words.
        (ask : AskToRunLive (map string_bytes words.items)) → result ≡ 6
        → (K.held sink.new ≡ K.held sink.old)
        ⊎ IfSome (S.left source.old) (λ input.
        SoFarRuns (settings_with ask.pages ask.patience ask.format) input
        (Appends (K.held sink.old) (K.held sink.new)))) }
    ensures no_memory_writes_whole_answers { IfOk words (λ words.
        AskToWire (map string_bytes words.items) → result ≡ 6
        → IfSome (S.left source.old) (λ bytes.
        StopsAmong bytes (WroteWhole (K.held sink.old) (K.held sink.new)))) }
    ensures no_memory_writes_whole_turns { IfOk words (λ words.
        result ≡ 6
        → ServedInPart (map string_bytes words.items) (S.left source.old) (K.held sink.old)
        (K.held sink.new)) }
    ensures no_memory { words ≡ Err NoWords.Memory → result ≡ 6 }
    ensures not_text { words ≡ Err NoWords.NotText → result ≡ 2 }
    ensures right_words { IfOk words (λ words.
        result ≡ 2 → AreNoCommand (map string_bytes words.items)) }
    ensures other_words { IfOk words (λ words.
        AreNoCommand (map string_bytes words.items) → result ≢ 6 → result ≡ 2) }
{
    let status = status_of(means, &words, source, sink);
    drop(words);
    let _ = fault_line(errors, &status);
    status.code()
}

// How a run of these words ends.
fn status_of<S: Source, K: Sink + Send, R: Threads + Wait + Clock + Sync>(
    means: &Means<'_, R>,
    words: &Result<Vec<String>, NoWords>,
    source: &mut S,
    sink: &mut K,
) -> Status
    ensures { Comes (texts_of words.now (λ words. map string_bytes words.items))
        (S.left source.old) (S.faults source.old) (S.faults source.new) (K.held sink.old)
        (K.held sink.new) (K.faults sink.old) (K.faults sink.new) result }
{
    match words {
        Ok(words) => run_words(means, words.as_slice(), source, sink),
        Err(NoWords::Memory) => Status::NoMemory,
        Err(NoWords::NotText) => Status::BadWords,
    }
}

// How a run of words that are there ends.
fn run_words<S: Source, K: Sink + Send, R: Threads + Wait + Clock + Sync>(
    means: &Means<'_, R>,
    words: &[String],
    source: &mut S,
    sink: &mut K,
) -> Status
    ensures { Comes (Ok (map string_bytes words.now)) (S.left source.old) (S.faults source.old)
        (S.faults source.new) (K.held sink.old) (K.held sink.new) (K.faults sink.old)
        (K.faults sink.new) result }
{
    match borrowed(means.alloc, words) {
        Ok(words) => {
            let status = run_notify(
                means.rt,
                means.alloc,
                means.hashes,
                words.as_slice(),
                source,
                sink,
            );
            drop(words);
            status
        }
        Err(AllocError) => Status::NoMemory,
    }
}

fn borrowed(alloc: Global, words: &[String]) -> Result<Vec<&str>, AllocError>
    ensures { IfOk result (λ texts.
        map (λ text. text.now) texts.items ≡ map string_bytes words.now) }
{
    let mut texts = Vec::new(alloc);
    for word in words {
        texts.push(word.as_str())?;
    }
    Ok(texts)
}

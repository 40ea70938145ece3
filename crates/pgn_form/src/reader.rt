ghost use Rattle.std.specs.Prelude.{◌≡◌, [], IfOk, MatchOption, MatchResult, true, ◌↔◌};
ghost use Rattle.pgn_language.specs.Inputs.{IsSound};
ghost use Rattle.pgn_reading.specs.Form.{BreaksForm, IsReading, whole_lines};
ghost use Rattle.pgn_form.specs.Cuts.{IsCut};
ghost use Rattle.pgn_form.specs.Drafts.{first_draft};
ghost use Rattle.pgn_form.specs.Places.{Ended};

use crate::Place;
use crate::draft::Draft;
use crate::steps::step;
use memchr::memchr;
use pgn_base::Seq;
use pgn_journal::Tx;
use pgn_language::Scenario;
use pgn_model::Trace;
use std::alloc::{AllocError, Global};

/// What an output shows: the journal, and for each section a trace, as its lines show them.
#[derive(Drop)]
pub struct Reading {
    pub journal: Seq<Tx>,
    pub traces: Seq<Trace>,
}

/// What a text shows as an output of the scenario, or the number of the first line that breaks its form, from 1.
pub fn read_output(
    alloc: Global,
    scenario: &Scenario,
    out: &[u8],
) -> Result<Result<Reading, usize>, AllocError>
    requires sound { IsSound scenario.now }
    ensures { IfOk result
        (λ read. MatchResult read
        (λ reading. IsReading scenario.now out.now reading.journal reading.traces)
        (BreaksForm scenario.now out.now)) }
{
    let mut draft = Draft::new(alloc);
    match read_lines(alloc, scenario, &mut draft, out) {
        Ok(None) => Ok(Ok(draft.into_reading())),
        // The draft is dropped by a call where it is of no more use: there are several ways out.
        Ok(Some(number)) => {
            drop(draft);
            Ok(Err(number))
        }
        Err(AllocError) => {
            drop(draft);
            Err(AllocError)
        }
    }
}

// Reads what a text shows, or the number of the first line that breaks its form.
#[tactic(auto, using(crate::proofs::ReaderLaws::come_first, crate::proofs::ReaderLaws::come_on, crate::proofs::CutLaws::cut_shorter))]
fn read_lines(
    alloc: Global,
    scenario: &Scenario,
    draft: &mut Draft,
    out: &[u8],
) -> Result<Option<usize>, AllocError>
    requires sound { IsSound scenario.now }
    requires first { draft.old ≡ first_draft }
    ensures { IfOk result
        (λ broken. MatchOption broken
        (IsReading scenario.now out.now draft.new.journal draft.new.traces)
        (BreaksForm scenario.now out.now)) }
{
    let mut place = Place::Start;
    let mut rest = out;
    let mut number: usize = 1;
    while let Some((line, tail)) = first_line(rest) {
        let Some(next) = step(alloc, scenario, place, draft, line)? else {
            return Ok(Some(number));
        };
        place = next;
        rest = tail;
        number += 1;
    }
    if is_read(scenario, place, rest) {
        Ok(None)
    } else {
        Ok(Some(number))
    }
}

impl Draft {
    // What has been read, where all is whole.
    fn into_reading(self) -> Reading
        ensures journal { result.journal ≡ self.journal }
        ensures traces { result.traces ≡ self.traces }
    {
        let Draft {
            journal,
            traces,
            items,
            part,
        } = self;
        drop(items);
        drop(part);
        Reading { journal, traces }
    }
}

// The first line of a text, and what follows its LF.
fn first_line(text: &[u8]) -> Option<(&[u8], &[u8])>
    ensures { MatchOption result (whole_lines text.now ≡ [])
        (λ cut. IsCut text.now cut.0.now cut.1.now) }
{
    let at = memchr(b'\n', text)?;
    Some((&text[..at], &text[at + 1..]))
}

// Nothing is left, and the last section has ended.
fn is_read(scenario: &Scenario, place: Place, rest: &[u8]) -> bool
    ensures { (result ≡ true) ↔ ((rest.now ≡ []) × (place ≡ Ended scenario.now)) }
{
    if !rest.is_empty() {
        return false;
    }
    is_end(scenario, place)
}

// Behind the last section.
fn is_end(scenario: &Scenario, place: Place) -> bool
    ensures { (result ≡ true) ↔ (place ≡ Ended scenario.now) }
{
    match place {
        Place::Sections { section } => section == scenario.sections.as_slice().len(),
        _ => false,
    }
}

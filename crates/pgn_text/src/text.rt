#![tactic(auto, using(crate::proofs::PutsLaws::put_laws))]

ghost use Rattle.pgn_base.specs.Outside.{HasCause, Writes};
ghost use Rattle.pgn_model.specs.Text.{text};

use crate::Out;
use pgn_base::{Failed, Sink};
use pgn_journal::Tx;
use pgn_language::Scenario;
use pgn_model::Trace;

/// Writes the output of a run. It takes no memory, and nothing is left to be written once it answers.
pub fn render<K: Sink>(
    sink: &mut K,
    scenario: &Scenario,
    journal: &[Tx],
    traces: &[Trace],
) -> Result<(), Failed>
    ensures bytes { Writes (K.held sink.old) (K.held sink.new) result
        (text scenario.now journal.now traces.now) }
    ensures cause { HasCause (K.faults sink.old) (K.faults sink.new) result }
{
    let mut out = Out::new();
    out.journal(sink, journal);
    out.sections(sink, scenario.sections.as_slice(), traces);
    out.send(sink);
    out.so_far
}

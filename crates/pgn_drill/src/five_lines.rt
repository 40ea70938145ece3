#![tactic(auto, using(pgn_base::proofs::OutsideLaws::writings))]

ghost use Rattle.std.specs.Prelude.{◌<◌, ◌++◌, decimal, flat_map};
ghost use Rattle.pgn_base.specs.Outside.{HasCause, Writes};
ghost use Rattle.pgn_model.specs.Text.{brief, received_in};

use crate::counts::{committed, received};
use itoa::Buffer;
use pgn_base::{Failed, Sink, write_all};
use pgn_journal::Tx;
use pgn_model::Trace;

/// Writes the five lines of a drill. It takes no memory.
pub fn summary<K: Sink>(
    sink: &mut K,
    seed: u64,
    notes: u32,
    journal: &[Tx],
    traces: &[Trace],
) -> Result<(), Failed>
    requires { received_in traces.now < 18446744073709551616 }
    ensures bytes { Writes (K.held sink.old) (K.held sink.new) result
        (brief seed notes journal.now traces.now) }
    ensures cause { HasCause (K.faults sink.old) (K.faults sink.new) result }
{
    let all = journal.len() as u64;
    let done = committed(journal);
    let pieces: [(&[u8], u64); 7] = [
        (b"drill seed ", seed),
        (b" sessions ", traces.len() as u64),
        (b" notes ", notes as u64),
        (b"\njournal ", all),
        (b"\ncommitted ", done),
        (b"\naborted ", all - done),
        (b"\nreceived ", received(traces).unwrap_or(0)),
    ];
    match numbers(sink, &pieces) {
        Ok(()) => write_all(sink, b"\n"),
        Err(failed) => Err(failed),
    }
}

// Writes pieces one after another, each of which is a text with a number behind it.
fn numbers<K: Sink>(sink: &mut K, pieces: &[(&[u8], u64)]) -> Result<(), Failed>
    ensures bytes { Writes (K.held sink.old) (K.held sink.new) result
        (flat_map (λ piece. piece.0.now ++ decimal piece.1) pieces.now) }
    ensures cause { HasCause (K.faults sink.old) (K.faults sink.new) result }
{
    for piece in pieces {
        number(sink, piece.0, piece.1)?;
    }
    Ok(())
}

// A text and a number.
fn number<K: Sink>(sink: &mut K, head: &[u8], number: u64) -> Result<(), Failed>
    ensures bytes { Writes (K.held sink.old) (K.held sink.new) result (head.now ++ decimal number) }
    ensures cause { HasCause (K.faults sink.old) (K.faults sink.new) result }
{
    let mut digits = Buffer::new();
    match write_all(sink, head) {
        Ok(()) => write_all(sink, digits.format(number).as_bytes()),
        Err(failed) => Err(failed),
    }
}

ghost use Rattle.std.specs.Prelude.{◌≡◌};

use pgn_base::{Failed, Sink, Source};
use std::io::{ErrorKind, Read, Write};

/// A reader as a source. It tells the bytes that its reader tells; standard input tells none. A read that a signal interrupts is
/// tried again, and is no fault.
#[derive(Drop)]
pub struct Input<R> {
    reader: R,
    faults: u64,
}

impl<R: Read> Input<R> {
    pub fn new(reader: R) -> Self
        ensures { result ≡ record { reader = reader; faults = 0 } }
    {
        Input { reader, faults: 0 }
    }
}

impl<R: Read> Source for Input<R> {
    ghost left = { λ input. R.remaining input.reader };

    ghost faults = { λ input. input.faults };

    #[tactic(auto, using(crate::proofs::AdapterLaws::adapter_laws))]
    fn read(&mut self, buf: &mut [u8]) -> Result<usize, Failed> {
        for _ in 0..u64::MAX {
            match self.reader.read(buf) {
                Ok(n) => return Ok(n),
                Err(error) if error.kind() == ErrorKind::Interrupted => {}
                Err(_) => break,
            }
        }
        self.faults = self.faults.saturating_add(1);
        Err(Failed)
    }
}

/// A writer as a sink. It tells the bytes that its writer tells; standard output tells none. A write that takes nothing of a piece
/// counts as a fault. One that a signal interrupts is tried again, and is none.
#[derive(Drop)]
pub struct Output<W> {
    writer: W,
    faults: u64,
}

impl<W: Write> Output<W> {
    pub fn new(writer: W) -> Self
        ensures { result ≡ record { writer = writer; faults = 0 } }
    {
        Output { writer, faults: 0 }
    }
}

impl<W: Write> Sink for Output<W> {
    ghost held = { λ output. W.contents output.writer };

    ghost faults = { λ output. output.faults };

    #[tactic(auto, using(crate::proofs::AdapterLaws::adapter_laws))]
    fn write(&mut self, piece: &[u8]) -> Result<usize, Failed> {
        for _ in 0..u64::MAX {
            match self.writer.write(piece) {
                Ok(0) if !piece.is_empty() => {
                    self.faults = self.faults.saturating_add(1);
                    return Ok(0);
                }
                Ok(n) => return Ok(n),
                Err(error) if error.kind() == ErrorKind::Interrupted => {}
                Err(_) => break,
            }
        }
        self.faults = self.faults.saturating_add(1);
        Err(Failed)
    }
}

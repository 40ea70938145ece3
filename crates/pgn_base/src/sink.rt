ghost use Rattle.std.specs.Prelude.{◌≡◌, ◌<◌, ◌≤◌, ◌⊎◌, List, ℕ, Option, length, IfOk, OnErr};
ghost use Rattle.std.specs.Io.KnownBytes.{WriteAppends};
ghost use Rattle.pgn_base.specs.Outside.{HasCause, Rose, Writes};

use crate::Failed;

/// Where bytes go to.
pub trait Sink {
    /// The bytes written to it, where it tells them.
    ghost held: { Self → Option (List ℕ) };

    /// How often a write has failed. It never falls, and stands still at 2^64 - 1.
    ghost faults: { Self → ℕ };

    /// Writes a prefix of `piece`, and says how many bytes. 0 for a piece that is not empty is a fault too, and is counted.
    fn write(&mut self, piece: &[u8]) -> Result<usize, Failed>
        ensures within { IfOk result (λ n. n ≤ length piece.now) }
        ensures bytes { WriteAppends (held self.old) (held self.new) result piece.now }
        ensures later { faults self.old ≤ faults self.new }
        ensures failed { OnErr result (Rose (faults self.old) (faults self.new)) }
        ensures zero { IfOk result (λ n. n ≡ 0 → 0 < length piece.now
            → Rose (faults self.old) (faults self.new)) }
        ensures took { IfOk result (λ n. (0 < n) ⊎ (length piece.now ≡ 0)
            → faults self.new ≡ faults self.old) };
}

/// Writes a whole piece, in as many writes as the sink takes. Where it fails, a prefix of the piece is written.
pub fn write_all<K: Sink>(sink: &mut K, piece: &[u8]) -> Result<(), Failed>
    ensures bytes { Writes (K.held sink.old) (K.held sink.new) result piece.now }
    ensures cause { HasCause (K.faults sink.old) (K.faults sink.new) result }
{
    let mut rest = piece;
    while !rest.is_empty() {
        let n = sink.write(rest)?;
        if n == 0 {
            return Err(Failed);
        }
        rest = &rest[n..];
    }
    Ok(())
}

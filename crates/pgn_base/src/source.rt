ghost use Rattle.std.specs.Prelude.{◌≤◌, List, ℕ, Option, length, IfOk};
ghost use Rattle.std.specs.Io.KnownBytes.{ReadConsumes};
ghost use Rattle.pgn_base.specs.Outside.{HasCause};

/// A read or a write that failed.
#[derive(Clone, Copy, PartialEq, Eq)]
pub struct Failed;

/// Where bytes come from.
pub trait Source {
    /// The bytes that it will still give, where it tells them.
    ghost left: { Self → Option (List ℕ) };

    /// How often a read has failed. It never falls, and stands still at 2^64 - 1.
    ghost faults: { Self → ℕ };

    /// Reads into the front of `buf`, and says how many bytes. 0 for a buffer that is not empty is the end.
    fn read(&mut self, buf: &mut [u8]) -> Result<usize, Failed>
        ensures within { IfOk result (λ n. n ≤ length buf.new) }
        ensures bytes { ReadConsumes (left self.old) (left self.new) result buf.new }
        ensures cause { HasCause (faults self.old) (faults self.new) result };
}

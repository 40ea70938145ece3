ghost use Rattle.std.specs.Prelude.{◌≡◌, ◌<◌, ◌≤◌, length, take, IfOk};
ghost use Rattle.std.specs.Io.KnownBytes.{Consumes, IsAtEnd};
ghost use Rattle.pgn_base.specs.Outside.{HasCause};

use pgn_base::{Failed, Source};

/// Reads until `buf` is full or the source ends, and says how many bytes. Not a byte more is taken from the source.
pub fn read_full<S: Source>(source: &mut S, buf: &mut [u8]) -> Result<usize, Failed>
    ensures size { length buf.new ≡ length buf.old }
    ensures within { IfOk result (λ n. n ≤ length buf.new) }
    ensures bytes { IfOk result (λ n. Consumes (S.left source.old) (S.left source.new) (take n buf.new)) }
    ensures ended { IfOk result (λ n. n < length buf.new → IsAtEnd (S.left source.new)) }
    ensures cause { HasCause (S.faults source.old) (S.faults source.new) result }
{
    let mut filled = 0;
    while filled < buf.len() {
        let n = source.read(&mut buf[filled..])?;
        if n == 0 {
            return Ok(filled);
        }
        filled += n;
    }
    Ok(filled)
}

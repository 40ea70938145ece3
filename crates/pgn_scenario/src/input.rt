ghost use Rattle.std.specs.Prelude.{◌≡◌, ◌<◌, ◌≤◌, take, IfOk, IfSome};
ghost use Rattle.std.specs.Io.KnownBytes.{Consumes};
ghost use Rattle.pgn_base.specs.Outside.{Rose};

use pgn_base::Source;
use std::alloc::Global;

/// Why an input was not read.
#[derive(Clone, Copy)]
pub enum Unread {
    Failed,
    Memory,
}

const CHUNK: usize = 8192;

/// Reads to the source's end, or to this many bytes.
pub fn read_input<S: Source>(alloc: Global, source: &mut S, limit: usize) -> Result<Vec<u8>, Unread>
    ensures bytes { IfOk result (λ input.
        IfSome (S.left source.old) (λ left. input.items ≡ take limit left)) }
    ensures consumed { IfOk result (λ input.
        Consumes (S.left source.old) (S.left source.new) input.items) }
    ensures later { S.faults source.old ≤ S.faults source.new }
    ensures failed { result ≡ Err Unread.Failed → Rose (S.faults source.old) (S.faults source.new) }
    ensures rose { S.faults source.old < S.faults source.new → result ≡ Err Unread.Failed }
{
    let mut input = Vec::new(alloc);
    let mut chunk = [0u8; CHUNK];
    while input.len() < limit {
        let room = CHUNK.min(limit - input.len());
        let Ok(n) = source.read(&mut chunk[..room]) else {
            return Err(Unread::Failed);
        };
        if n == 0 {
            return Ok(input);
        }
        let Ok(()) = input.extend_from_slice(&chunk[..n]) else {
            return Err(Unread::Memory);
        };
    }
    Ok(input)
}

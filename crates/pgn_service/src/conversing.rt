ghost use Rattle.std.specs.Prelude.{◌≡◌, ◌<◌, ◌≤◌, Err, IfSome};
ghost use Rattle.pgn_base.specs.Outside.{Rose};
ghost use Rattle.pgn_service.specs.Conversation.{EndsBy};

use crate::client::{finish, open};
use pgn_base::{Seed, Sink, Source};
use pgn_hub::{Hub, PassView};
use pgn_wire::{WireEnd, serve_wire};
use std::alloc::Global;
use std::sync::Wait;

/// Serves a client over a hub of this type, which it opens: the session is number 1, of database 1, with a limit of 256 pages. It may
/// wait for the hub, so that it is not promised that it returns. Hashes are made with this seed.
pub fn converse<P: PassView + Drop, H: Hub<Pass = P> + Drop, R: Wait, S: Source, K: Sink>(
    rt: &R,
    alloc: Global,
    hashes: Seed,
    source: &mut S,
    sink: &mut K,
) -> Result<(), WireEnd>
    // What the client asked, and what stands written, by how it ended.
    ensures ends { IfSome (S.left source.old) (λ bytes.
        EndsBy result bytes (K.held sink.old) (K.held sink.new)) }
    ensures read { result ≡ Err WireEnd.Read → Rose (S.faults source.old) (S.faults source.new) }
    ensures write { result ≡ Err WireEnd.Write → Rose (K.faults sink.old) (K.faults sink.new) }
    ensures source_later { S.faults source.old ≤ S.faults source.new }
    ensures source_rose { S.faults source.old < S.faults source.new → result ≡ Err WireEnd.Read }
    ensures sink_later { K.faults sink.old ≤ K.faults sink.new }
    ensures sink_rose { K.faults sink.old < K.faults sink.new → result ≡ Err WireEnd.Write }
{
    let Ok((hub, mut session)) = open::<P, H>(alloc, hashes) else {
        return Err(WireEnd::Memory);
    };
    match serve_wire(rt, alloc, &hub, &mut session, source, sink) {
        Ok(()) => match finish(alloc, hub, session) {
            Ok(()) => Ok(()),
            Err(_) => Err(WireEnd::Memory),
        },
        // Dropped here, by a call: `finish` takes them on the other way.
        Err(end) => {
            drop(session);
            drop(hub);
            Err(end)
        }
    }
}

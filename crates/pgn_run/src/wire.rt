ghost use Rattle.std.specs.Prelude.{◌≡◌, ◌<◌, IfSome};
ghost use Rattle.pgn_base.specs.Outside.{Rose};
ghost use Rattle.pgn_run.specs.Ending.{wire_status};
ghost use Rattle.pgn_run.specs.Run.{AnswersWire, IsOfWire};

use crate::Status;
use pgn_base::{Sink, Source};
use pgn_hub::Hub;
use pgn_service::{Means, converse};
use pgn_wire::WireEnd;
use pgn_wordhub::WordHub;
use std::sync::Wait;

// Serves a client that asks on the source and is answered on the sink.
pub(crate) fn wire<R: Wait, S: Source, K: Sink>(
    means: &Means<'_, R>,
    source: &mut S,
    sink: &mut K,
) -> Status
    ensures answers { IfSome (S.left source.old) (λ bytes.
        AnswersWire bytes (K.held sink.old) (K.held sink.new) result) }
    ensures own { IsOfWire result }
    ensures read_fault { result ≡ Status.ReadFault
        → Rose (S.faults source.old) (S.faults source.new) }
    ensures read_fault_where_due { S.faults source.old < S.faults source.new
        → result ≡ Status.ReadFault }
    ensures write_fault { result ≡ Status.WriteFault
        → Rose (K.faults sink.old) (K.faults sink.new) }
    ensures write_fault_where_due { K.faults sink.old < K.faults sink.new
        → result ≡ Status.WriteFault }
{
    status_of(converse::<<WordHub as Hub>::Pass, WordHub, R, S, K>(
        means.rt,
        means.alloc,
        means.hashes,
        source,
        sink,
    ))
}

// The status of each end of a client.
fn status_of(end: Result<(), WireEnd>) -> Status
    ensures { result ≡ wire_status end }
{
    match end {
        Ok(()) => Status::Done,
        Err(WireEnd::Bad(fault)) => Status::BadWire(fault),
        Err(WireEnd::Read) => Status::ReadFault,
        Err(WireEnd::Write) => Status::WriteFault,
        Err(WireEnd::Memory) => Status::NoMemory,
    }
}

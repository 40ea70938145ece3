ghost use Rattle.std.specs.Prelude.{◌≡◌, ◌⊎◌, ◌<◌, ◌≤◌, IfSome};
ghost use Rattle.pgn_base.specs.Outside.{Rose};
ghost use Rattle.pgn_base.specs.declared.limits.TheConstants.{SECTIONS_MAX};
ghost use Rattle.pgn_run.specs.Ending.{serve_status};
ghost use Rattle.pgn_run.specs.Run.{AnswersServe, IsOfServe};

use crate::Status;
use pgn_base::{Sink, Source};
use pgn_hub::Hub;
use pgn_service::{Means, ServiceEnd, run_service};
use pgn_wordhub::WordHub;
use std::sync::Wait;
use std::thread::Threads;

// Serves the clients of so many seats, whose frames are read from the source and written to the sink.
pub(crate) fn serve<R: Threads + Wait + Sync, S: Source, K: Sink + Send>(
    means: &Means<'_, R>,
    seats: u32,
    source: &mut S,
    sink: &mut K,
) -> Status
    requires some { 1 ≤ seats }
    requires few { seats ≤ SECTIONS_MAX }
    ensures answers { IfSome (S.left source.old) (λ bytes.
        AnswersServe seats bytes (K.held sink.old) (K.held sink.new) result) }
    ensures own { IsOfServe result }
    ensures read_fault { result ≡ Status.ReadFault
        → Rose (S.faults source.old) (S.faults source.new) }
    ensures fault_where_due { S.faults source.old < S.faults source.new
        → (result ≡ Status.ReadFault) ⊎ (result ≡ Status.WriteFault) ⊎ (result ≡ Status.NoMemory) }
    ensures write_fault { result ≡ Status.WriteFault
        → Rose (K.faults sink.old) (K.faults sink.new) }
    ensures write_fault_where_due { K.faults sink.old < K.faults sink.new
        → result ≡ Status.WriteFault }
{
    status_of(run_service::<<WordHub as Hub>::Pass, WordHub, R, S, K>(means, seats, source, sink))
}

// The status of each end of a service.
fn status_of(end: Result<(), ServiceEnd>) -> Status
    ensures { result ≡ serve_status end }
{
    match end {
        Ok(()) => Status::Done,
        Err(ServiceEnd::Bad(fault)) => Status::BadFrame(fault),
        Err(ServiceEnd::Read) => Status::ReadFault,
        Err(ServiceEnd::Write) => Status::WriteFault,
        Err(ServiceEnd::Memory) => Status::NoMemory,
    }
}

ghost use Rattle.std.specs.Prelude.{◌≡◌, ◌⊎◌, ◌<◌, ◌≤◌, Err, IfSome};
ghost use Rattle.pgn_base.specs.Outside.{Rose};
ghost use Rattle.pgn_base.specs.declared.limits.TheConstants.{SECTIONS_MAX};
ghost use Rattle.pgn_service.specs.Ending.{EndsService, end_of};

use crate::Means;
use crate::arms::{Room, run_arms};
use crate::closing::close;
use crate::seating::{Seating, open};
use pgn_base::{Failed, Sink, Source};
use pgn_frames::{FrameFault, NoFrame};
use pgn_hub::{Hub, PassView};
use pgn_threads::laws::runs_are_legal;
use pgn_workers::Start;
use std::alloc::AllocError;
use std::sync::Wait;
use std::thread::Threads;

/// Why a service did not come to a good end.
#[derive(Clone, Copy)]
pub enum ServiceEnd {
    /// What was read is at fault; all frames before were served.
    Bad(FrameFault),
    /// The source failed; all frames that were read whole were served.
    Read,
    /// The sink failed.
    Write,
    /// Memory did not suffice.
    Memory,
}

/// Serves the clients of so many seats, from 1 to 256, over a hub of this type, which it opens: frames of what they ask are read from
/// the source, and frames of what they are told are written to the sink, as it comes. It may wait for a long time, so that it is not
/// promised that it returns.
pub fn run_service<
    P: PassView + Send + Drop,
    H: Hub<Pass = P> + Sync + Drop,
    R: Threads + Wait + Sync,
    S: Source,
    K: Sink + Send,
>(means: &Means<'_, R>, seats: u32, source: &mut S, sink: &mut K) -> Result<(), ServiceEnd>
    requires some { 1 ≤ seats }
    requires few { seats ≤ SECTIONS_MAX }
    // What was read, and what stands written, by how it ended.
    ensures ends { IfSome (S.left source.old) (λ bytes.
        EndsService seats result bytes (K.held sink.old) (K.held sink.new)) }
    ensures read { result ≡ Err ServiceEnd.Read → Rose (S.faults source.old) (S.faults source.new) }
    ensures write { result ≡ Err ServiceEnd.Write → Rose (K.faults sink.old) (K.faults sink.new) }
    ensures source_later { S.faults source.old ≤ S.faults source.new }
    ensures source_rose { S.faults source.old < S.faults source.new → (result ≡ Err ServiceEnd.Read)
        ⊎ (result ≡ Err ServiceEnd.Write) ⊎ (result ≡ Err ServiceEnd.Memory) }
    ensures sink_later { K.faults sink.old ≤ K.faults sink.new }
    ensures sink_rose { K.faults sink.old < K.faults sink.new → result ≡ Err ServiceEnd.Write }
{
    let Ok((hub, seating)) = open::<P, H>(means.alloc, means.hashes, seats) else {
        return Err(ServiceEnd::Memory);
    };
    let Seating {
        inboxes,
        mut desks,
        mut callers,
    } = seating;
    let room = Room {
        rt: means.rt,
        alloc: means.alloc,
        hub: &hub,
        inboxes: inboxes.as_slice(),
        meeting: Start::new(),
    };
    let ((so_far, served), read) = run_arms(
        &room,
        desks.as_mut_slice(),
        callers.as_mut_slice(),
        source,
        sink,
    );
    drop(room);
    let seating = Seating {
        inboxes,
        desks,
        callers,
    };
    runs_are_legal();
    let ran = close(means.rt, means.alloc, hub, seating, served);
    answer(so_far, ran, read)
}

// What a service has come to whose writes, desks and reader have come to this.
fn answer(
    so_far: Result<(), Failed>,
    ran: Result<(), AllocError>,
    read: Result<Option<FrameFault>, NoFrame>,
) -> Result<(), ServiceEnd>
    ensures { result ≡ end_of so_far ran read }
{
    match (so_far, ran, read) {
        (Err(_), _, _) => Err(ServiceEnd::Write),
        (Ok(()), Err(_), _) | (Ok(()), Ok(()), Err(NoFrame::Memory)) => Err(ServiceEnd::Memory),
        (Ok(()), Ok(()), Err(NoFrame::Failed)) => Err(ServiceEnd::Read),
        (Ok(()), Ok(()), Ok(Some(fault))) => Err(ServiceEnd::Bad(fault)),
        (Ok(()), Ok(()), Ok(None)) => Ok(()),
    }
}

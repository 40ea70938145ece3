ghost use Rattle.std.specs.Prelude.{◌≡◌, ℕ, true, [], cond, length, OnOk};
ghost use Rattle.pgn_outlet.specs.Passes.{IsPassOf, knows};
ghost use Rattle.pgn_outlet.specs.Rule as rule;
ghost use Rattle.pgn_text.specs.Rendering.{Puts};
ghost use Rattle.pgn_seats.specs.Desks.{HaveServed, MayServe};
ghost use Rattle.pgn_frames.specs.Reading.{MayCall};
ghost use Rattle.pgn_frames.specs.Writing.{Wrote};
ghost use Rattle.pgn_service.specs.Arms.{HasReadBy, HasToldBy, HasWrittenRest};
ghost use Rattle.pgn_service.specs.Service.{over_frame};

use pgn_base::{Failed, Sink, Source};
use pgn_frames::{Caller, FrameFault, NoFrame, read_frames, write_over, write_rest, write_until};
use pgn_hub::{Hub, PassView};
use pgn_messages::Saying;
use pgn_outlet::{Bell, Outlet, OutletPass};
use pgn_seats::{Desk, Inbox, Service, Tells, serve_seats};
use pgn_text::Out;
use pgn_workers::Start;
use std::alloc::{AllocError, Global};
use std::sync::Wait;
use std::sync::atomic::{AtomicU64, Ordering};
use std::thread::{Threads, join_mut};

/// What the writes of a service came to, and what its desks did.
pub(crate) type Told = (Result<(), Failed>, Result<(), AllocError>);

/// What the arms of a service share: what they run on, the hub, what the seats are asked by, and where they meet.
#[derive(Drop)]
pub(crate) struct Room<'a, R, H> {
    pub(crate) rt: &'a R,
    pub(crate) alloc: Global,
    pub(crate) hub: &'a H,
    pub(crate) inboxes: &'a [Inbox],
    pub(crate) meeting: Start,
}

// What the desks of a service and its writer share besides.
#[derive(Drop)]
struct Hall<'a, R, H> {
    rt: &'a R,
    alloc: Global,
    hub: &'a H,
    inboxes: &'a [Inbox],
    outbox: &'a Outlet<Saying>,
    // On which they meet the reader, and one another.
    meeting: &'a Start,
    met: Start,
    // Set once the desks are done; then the bell is rung.
    end: AtomicU64,
    bell: Bell,
}

// What a writer takes by, and what is on its way to the sink.
#[derive(Drop)]
struct Writing {
    takes: OutletPass<Saying>,
    out: Out,
}

/// The three arms of a service: its desks, a writer of what they tell, and a reader of what they are asked. The reader is on the caller's
/// thread, and the others need two threads besides: where these can't be had nothing is read and nothing written, since who could not begin
/// before another ends would never be asked, or heard. No contract says so.
pub(crate) fn run_arms<
    P: PassView + Send + Drop,
    H: Hub<Pass = P> + Sync,
    R: Threads + Wait + Sync,
    S: Source,
    K: Sink + Send,
>(
    room: &Room<'_, R, H>,
    desks: &mut [Desk<P>],
    callers: &mut [Caller],
    source: &mut S,
    sink: &mut K,
) -> (Told, Result<Option<FrameFault>, NoFrame>)
    requires may { MayServe (H.is_pass room.now.hub.now) (H.shape room.now.hub.now) P.known
        room.now.inboxes.now desks.old rule.sender }
    requires call { (most : ℕ) × MayCall most room.now.inboxes.now callers.old }
    requires seats { length (H.shape room.now.hub.now).seats ≡ length callers.old }
    ensures told { HasToldBy (H.is_pass room.now.hub.now) (H.shape room.now.hub.now) P.known
        room.now.inboxes.now desks.old desks.new K.held K.faults sink.old sink.new result.0 }
    ensures read { HasReadBy S.left S.faults room.now.inboxes.now callers.old callers.new source.old
        source.new result.1 }
{
    join_mut(
        room.rt,
        &mut || -> Told
            requires { MayServe (H.is_pass room.now.hub.now) (H.shape room.now.hub.now) P.known
                room.now.inboxes.now desks.now rule.sender }
            ensures { HasToldBy (H.is_pass room.entry.now.hub.now) (H.shape room.entry.now.hub.now)
                P.known room.entry.now.inboxes.now desks.entry.now desks.exit.now K.held K.faults
                sink.entry.now sink.exit.now result }
        { serve_and_write(room, desks, sink) },
        &mut || -> Result<Option<FrameFault>, NoFrame>
            requires { ((most : ℕ) × MayCall most room.now.inboxes.now callers.now)
                × (length (H.shape room.now.hub.now).seats ≡ length callers.now) }
            ensures { HasReadBy S.left S.faults room.entry.now.inboxes.now callers.entry.now
                callers.exit.now source.entry.now source.exit.now result }
        { read_where_met(room, callers, source) },
    )
}

// Reads all frames, once the other arms are there.
#[tactic(auto, using(crate::proofs::ArmLaws::read_laws))]
fn read_where_met<H: Hub, R: Wait, S: Source>(
    room: &Room<'_, R, H>,
    callers: &mut [Caller],
    source: &mut S,
) -> Result<Option<FrameFault>, NoFrame>
    requires call { (most : ℕ) × MayCall most room.now.inboxes.now callers.old }
    requires seats { length (H.shape room.now.hub.now).seats ≡ length callers.old }
    ensures { HasReadBy S.left S.faults room.now.inboxes.now callers.old callers.new source.old
        source.new result }
{
    if !room.meeting.expects(room.rt) {
        return Err(NoFrame::Memory);
    }
    read_frames(room.rt, room.alloc, room.hub, room.inboxes, callers, source)
}

// Serves, and writes what is told: by an outbox of its own, which it ends. Where a desk was refused memory it says behind all that was told
// that the service is over.
#[tactic(auto, using(crate::proofs::ArmLaws::told_laws))]
fn serve_and_write<
    P: PassView + Send + Drop,
    H: Hub<Pass = P> + Sync,
    R: Threads + Wait + Sync,
    K: Sink + Send,
>(room: &Room<'_, R, H>, desks: &mut [Desk<P>], sink: &mut K) -> Told
    requires may { MayServe (H.is_pass room.now.hub.now) (H.shape room.now.hub.now) P.known
        room.now.inboxes.now desks.old rule.sender }
    ensures { HasToldBy (H.is_pass room.now.hub.now) (H.shape room.now.hub.now) P.known
        room.now.inboxes.now desks.old desks.new K.held K.faults sink.old sink.new result }
{
    let Ok((outbox, sends, takes)) = Outlet::open(room.alloc) else {
        return (Ok(()), Err(AllocError));
    };
    let mut tells = Tells::new(sends);
    let mut writing = Writing {
        takes,
        out: Out::new(),
    };
    let hall = Hall {
        rt: room.rt,
        alloc: room.alloc,
        hub: room.hub,
        inboxes: room.inboxes,
        outbox: &outbox,
        meeting: &room.meeting,
        met: Start::new(),
        end: AtomicU64::new(0),
        bell: Bell::new(),
    };
    let (served, begun) = serve_beside(&hall, desks, &mut tells, &mut writing, sink);
    drop(hall);
    let mut out = write_to_the_end(room.rt, outbox, tells, writing, sink);
    end_writing(is_over(begun, served), &mut out, sink);
    (out.so_far, served)
}

// Whether the frame says that a service is over before its input: its desks have begun, and one was refused memory. Where they have not begun
// nothing is written.
fn is_over(begun: bool, served: Result<(), AllocError>) -> bool
    ensures { result ≡ true → OnOk served ⊥ }
{
    begun && served.is_err()
}

// Writes what is left in an outbox once the desks are done, and ends it; what it was written through is given back.
fn write_to_the_end<R: Wait, K: Sink>(
    rt: &R,
    outbox: Outlet<Saying>,
    tells: Tells,
    writing: Writing,
    sink: &mut K,
) -> Out
    requires own { IsPassOf outbox tells.pass × IsPassOf outbox writing.takes }
    requires takes { (knows writing.takes).takes ≡ true }
    ensures { HasWrittenRest K.held K.faults (knows tells.pass) (knows writing.takes) writing.out
        sink.old sink.new result }
{
    let Tells {
        pass: mut sends,
        ..
    } = tells;
    let Writing { takes, mut out } = writing;
    outbox.close(&mut sends, takes);
    write_rest(rt, &outbox, &mut sends, &mut out, sink);
    outbox.destroy();
    out
}

// Says that the service is over, where it is.
#[tactic(auto, using(pgn_text::proofs::PutsLaws::out_laws))]
fn end_writing<K: Sink>(over: bool, out: &mut Out, sink: &mut K)
    requires sent { OnOk out.old.so_far (out.old.kept ≡ []) }
    ensures puts { Puts K.held K.faults sink.old out.old sink.new out.new
        (cond over over_frame []) }
    ensures sent { OnOk out.new.so_far (out.new.kept ≡ []) }
{
    if over {
        write_over(out, sink);
        out.send(sink);
    }
}

// The desks serve, and beside them what they tell is written: where the writer has a thread, and the reader is there. The second answer is
// whether they have begun. The writer is the closure that the join calls last where no thread can be had: then they have not met.
fn serve_beside<
    P: PassView + Send + Drop,
    H: Hub<Pass = P> + Sync,
    R: Threads + Wait + Sync,
    K: Sink + Send,
>(
    hall: &Hall<'_, R, H>,
    desks: &mut [Desk<P>],
    tells: &mut Tells,
    writing: &mut Writing,
    sink: &mut K,
) -> (Result<(), AllocError>, bool)
    requires own { IsPassOf hall.now.outbox.now tells.old.pass
        × IsPassOf hall.now.outbox.now writing.old.takes }
    requires may { MayServe (H.is_pass hall.now.hub.now) (H.shape hall.now.hub.now) P.known
        hall.now.inboxes.now desks.old (knows tells.old.pass) }
    requires takes { (knows writing.old.takes).takes ≡ true }
    ensures own { IsPassOf hall.now.outbox.now tells.new.pass
        × IsPassOf hall.now.outbox.now writing.new.takes }
    ensures served { HaveServed (H.is_pass hall.now.hub.now) (H.shape hall.now.hub.now) P.known
        hall.now.inboxes.now desks.old desks.new (knows tells.old.pass) (knows tells.new.pass)
        result.0 }
    ensures wrote { Wrote K.held K.faults (knows writing.old.takes) (knows writing.new.takes)
        sink.old writing.old.out sink.new writing.new.out }
{
    let ((), served) = join_mut(
        hall.rt,
        &mut || -> ()
            requires { IsPassOf hall.now.outbox.now writing.now.takes
                × ((knows writing.now.takes).takes ≡ true) }
            ensures { IsPassOf hall.entry.now.outbox.now writing.exit.now.takes
                × Wrote K.held K.faults (knows writing.entry.now.takes)
                (knows writing.exit.now.takes) sink.entry.now writing.entry.now.out
                sink.exit.now writing.exit.now.out }
        { write_where_met(hall, writing, sink) },
        &mut || -> (Result<(), AllocError>, bool)
            requires { IsPassOf hall.now.outbox.now tells.now.pass
                × MayServe (H.is_pass hall.now.hub.now) (H.shape hall.now.hub.now) P.known
                hall.now.inboxes.now desks.now (knows tells.now.pass) }
            ensures { IsPassOf hall.entry.now.outbox.now tells.exit.now.pass
                × HaveServed (H.is_pass hall.entry.now.hub.now) (H.shape hall.entry.now.hub.now)
                P.known hall.entry.now.inboxes.now desks.entry.now desks.exit.now
                (knows tells.entry.now.pass) (knows tells.exit.now.pass) result.0 }
        { serve_and_end(hall, desks, tells) },
    );
    served
}

// Writes what comes, where the desks have waited for it, until they are done.
#[tactic(auto, using(crate::proofs::ArmLaws::wrote_laws))]
fn write_where_met<H: Hub + Sync, R: Wait, K: Sink>(
    hall: &Hall<'_, R, H>,
    writing: &mut Writing,
    sink: &mut K,
)
    requires own { IsPassOf hall.now.outbox.now writing.old.takes }
    requires takes { (knows writing.old.takes).takes ≡ true }
    ensures own { IsPassOf hall.now.outbox.now writing.new.takes }
    ensures wrote { Wrote K.held K.faults (knows writing.old.takes) (knows writing.new.takes)
        sink.old writing.old.out sink.new writing.new.out }
{
    if !hall.met.comes() {
        return;
    }
    write_until(
        hall.rt,
        &hall.end,
        &hall.bell,
        hall.outbox,
        &mut writing.takes,
        &mut writing.out,
        sink,
    );
}

// The desks serve, and then the end word is set and the writer's bell is rung, also where they have not begun. The second answer is whether
// they have.
fn serve_and_end<P: PassView + Send + Drop, H: Hub<Pass = P> + Sync, R: Threads + Wait + Sync>(
    hall: &Hall<'_, R, H>,
    desks: &mut [Desk<P>],
    tells: &mut Tells,
) -> (Result<(), AllocError>, bool)
    requires own { IsPassOf hall.now.outbox.now tells.old.pass }
    requires may { MayServe (H.is_pass hall.now.hub.now) (H.shape hall.now.hub.now) P.known
        hall.now.inboxes.now desks.old (knows tells.old.pass) }
    ensures own { IsPassOf hall.now.outbox.now tells.new.pass }
    ensures served { HaveServed (H.is_pass hall.now.hub.now) (H.shape hall.now.hub.now) P.known
        hall.now.inboxes.now desks.old desks.new (knows tells.old.pass) (knows tells.new.pass)
        result.0 }
{
    let served = serve_where_met(hall, desks, tells);
    hall.end.store(1, Ordering::SeqCst);
    hall.bell.ring();
    served
}

// The desks serve, where the writer and the reader are there. The second answer is whether they are. Else nobody was asked or told anything,
// and the first is want of memory.
#[tactic(auto, using(crate::proofs::ArmLaws::served_laws))]
fn serve_where_met<P: PassView + Send + Drop, H: Hub<Pass = P> + Sync, R: Threads + Wait + Sync>(
    hall: &Hall<'_, R, H>,
    desks: &mut [Desk<P>],
    tells: &mut Tells,
) -> (Result<(), AllocError>, bool)
    requires own { IsPassOf hall.now.outbox.now tells.old.pass }
    requires may { MayServe (H.is_pass hall.now.hub.now) (H.shape hall.now.hub.now) P.known
        hall.now.inboxes.now desks.old (knows tells.old.pass) }
    ensures own { IsPassOf hall.now.outbox.now tells.new.pass }
    ensures served { HaveServed (H.is_pass hall.now.hub.now) (H.shape hall.now.hub.now) P.known
        hall.now.inboxes.now desks.old desks.new (knows tells.old.pass) (knows tells.new.pass)
        result.0 }
{
    if !hall.met.expects(hall.rt) || !hall.meeting.comes() {
        return (Err(AllocError), false);
    }
    let service = Service {
        rt: hall.rt,
        alloc: hall.alloc,
        hub: hall.hub,
        inboxes: hall.inboxes,
        outbox: hall.outbox,
        bell: &hall.bell,
    };
    let served = serve_seats(&service, desks, tells);
    drop(service);
    (served, true)
}

#![tactic(auto, using(crate::proofs::WriteLaws::write_laws))]

ghost use Rattle.std.specs.Prelude.{◌≡◌, ◌≤◌, true, false, [], ◌∷◌, length, map, OnOk, Some};
ghost use Rattle.pgn_outlet.specs.Passes.{HasAll, IsPassOf, knows};
ghost use Rattle.pgn_text.specs.Rendering.{Puts};
ghost use Rattle.pgn_messages.specs.Sayings.{signs_told};
ghost use Rattle.pgn_frames.specs.Frames.{signs_in};
ghost use Rattle.pgn_frames.specs.Writing.{Gave, Wrote};

use pgn_base::{SessionNo, Sink};
use pgn_messages::Saying;
use pgn_outlet::{Bell, Outlet, OutletPass};
use pgn_text::Out;
use std::sync::Wait;
use std::sync::atomic::{AtomicU64, Ordering};

// How many bytes of a seat one frame carries at most.
const BODY_MAX: usize = 65_535;

/// Gives out what comes, in frames, until the end word is set and nothing is left for now. Where nothing has come it sends what is kept
/// back and dozes until the bell rings: so who pushes rings it behind the push, and who sets the end word behind that. After a failed
/// write it goes on to take what comes.
pub fn write_until<R: Wait, K: Sink>(
    rt: &R,
    end: &AtomicU64,
    bell: &Bell,
    outbox: &Outlet<Saying>,
    pass: &mut OutletPass<Saying>,
    out: &mut Out,
    sink: &mut K,
)
    requires own { IsPassOf outbox.now pass.old }
    requires takes { (knows pass.old).takes ≡ true }
    ensures own { IsPassOf outbox.now pass.new }
    ensures takes { (knows pass.new).takes ≡ true }
    ensures wrote { Wrote K.held K.faults (knows pass.old) (knows pass.new) sink.old out.old
        sink.new out.new }
{
    let mut armed = false;
    for _ in rt.forever() {
        if write_next(rt, outbox, pass, out, sink) {
            armed = false;
            continue;
        }
        if end.load(Ordering::SeqCst) != 0 {
            return;
        }
        armed = wait_for_more(rt, bell, armed);
    }
    unreachable!()
}

// Behind a look at an empty outbox: arms the bell, and behind the next such look dozes. Answers whether the bell is armed.
fn wait_for_more<R: Wait>(rt: &R, bell: &Bell, armed: bool) -> bool {
    if armed {
        bell.doze(rt);
        return false;
    }
    bell.arm();
    true
}

/// Gives out all that is left, and sends what is kept back.
pub fn write_rest<R: Wait, K: Sink>(
    rt: &R,
    outbox: &Outlet<Saying>,
    pass: &mut OutletPass<Saying>,
    out: &mut Out,
    sink: &mut K,
)
    requires own { IsPassOf outbox.now pass.old }
    requires takes { (knows pass.old).takes ≡ true }
    ensures own { IsPassOf outbox.now pass.new }
    ensures wrote { Wrote K.held K.faults (knows pass.old) (knows pass.new) sink.old out.old
        sink.new out.new }
    ensures has_all { HasAll (knows pass.new) }
    ensures sent { OnOk out.new.so_far (out.new.kept ≡ []) }
{
    for _ in rt.forever() {
        if !write_next(rt, outbox, pass, out, sink) {
            return;
        }
    }
    unreachable!()
}

/// Gives out the frame of no seat, by which a service says that it is over before its input ends.
pub fn write_over<K: Sink>(out: &mut Out, sink: &mut K)
    ensures { Puts K.held K.faults sink.old out.old sink.new out.new (0 ∷ 0 ∷ 0 ∷ 0 ∷ []) }
{
    out.text(sink, &[0; 4]);
}

// Takes what has come and gives its frames out; where nothing has, it sends what is kept back. Answers whether anything had come.
fn write_next<R: Wait, K: Sink>(
    rt: &R,
    outbox: &Outlet<Saying>,
    pass: &mut OutletPass<Saying>,
    out: &mut Out,
    sink: &mut K,
) -> bool
    requires own { IsPassOf outbox.now pass.old }
    requires takes { (knows pass.old).takes ≡ true }
    ensures own { IsPassOf outbox.now pass.new }
    ensures takes { (knows pass.new).takes ≡ true }
    ensures wrote { Wrote K.held K.faults (knows pass.old) (knows pass.new) sink.old out.old
        sink.new out.new }
    ensures has_all { result ≡ false → HasAll (knows pass.new) }
    ensures sent { result ≡ false → OnOk out.new.so_far (out.new.kept ≡ []) }
{
    match outbox.take(rt, pass) {
        Some(came) => {
            write_saying(sink, out, came.session, &came.what);
            true
        }
        None => {
            out.send(sink);
            false
        }
    }
}

// Gives out what a seat's client is told at once.
fn write_saying<K: Sink>(sink: &mut K, out: &mut Out, seat: SessionNo, saying: &Saying)
    ensures { Gave K.held K.faults seat (signs_told saying.now) sink.old out.old sink.new out.new }
{
    write_bytes(sink, out, seat, &saying.bytes);
    if saying.ends {
        write_frame(sink, out, seat, &[]);
    }
}

// Gives out bytes of a seat in as few frames as there can be.
fn write_bytes<K: Sink>(sink: &mut K, out: &mut Out, seat: SessionNo, bytes: &[u8])
    ensures { Gave K.held K.faults seat (map Some bytes.now) sink.old out.old sink.new out.new }
{
    let mut rest = bytes;
    while !rest.is_empty() {
        let (piece, behind) = rest.split_at(rest.len().min(BODY_MAX));
        write_frame(sink, out, seat, piece);
        rest = behind;
    }
}

// Gives a frame out.
fn write_frame<K: Sink>(sink: &mut K, out: &mut Out, seat: SessionNo, bytes: &[u8])
    requires { length bytes.now ≤ 65535 }
    ensures { Gave K.held K.faults seat (signs_in bytes.now) sink.old out.old sink.new out.new }
{
    let number = seat.get() as u16;
    let size = bytes.len() as u16;
    out.text(sink, &number.to_be_bytes());
    out.text(sink, &size.to_be_bytes());
    out.text(sink, bytes);
}

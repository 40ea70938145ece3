ghost use Rattle.std.specs.Prelude.{◌≡◌, ℕ, ◌<◌, ◌≤◌, ◌++◌, drop, length, take, IfOk, OnOk};
ghost use Rattle.std.specs.Int.{from_be_bytes, w16};
ghost use Rattle.std.specs.Io.KnownBytes.{Consumes, IsAtEnd};
ghost use Rattle.pgn_base.specs.Outside.{Rose};
ghost use Rattle.pgn_queries.specs.Client.{OfKnown};
ghost use Rattle.pgn_frames.specs.Frames.{IsSeat, NextFrame};
ghost use Rattle.pgn_frames.specs.Arrivals.{framing_of};

use crate::FrameFault;
use pgn_base::{Failed, Source};
use pgn_queries::read_full;

/// What comes next of an input.
#[derive(Clone, Copy)]
pub enum Arrival {
    /// The input ends between two frames.
    End,
    /// A frame of this seat.
    Frame(u16),
    Fault(FrameFault),
}

/// Why nothing came.
#[derive(Clone, Copy)]
pub enum NoFrame {
    /// The source failed.
    Failed,
    Memory,
}

/// Reads the next frame of an input, which begins at this offset, where there are so many seats. Its bytes stand in `body` then. No byte
/// behind the frame is taken from the source, and of a frame without a seat none behind its head.
#[tactic(auto, using(crate::proofs::ArrivalLaws::head_laws))]
pub fn next_frame<S: Source>(
    source: &mut S,
    seats: u16,
    at: u64,
    body: &mut Vec<u8>,
) -> Result<Arrival, NoFrame>
    ensures next { IfOk result (λ arrival. OfKnown
        (NextFrame seats at (framing_of arrival body.new.items)) (S.left source.old)
        (S.left source.new)) }
    ensures seat { (seat : ℕ) → result ≡ Ok (Arrival.Frame seat) → IsSeat seats seat }
    ensures later { S.faults source.old ≤ S.faults source.new }
    ensures failed { result ≡ Err NoFrame.Failed
        → Rose (S.faults source.old) (S.faults source.new) }
    ensures rose { S.faults source.old < S.faults source.new → result ≡ Err NoFrame.Failed }
{
    let mut head = [0u8; 4];
    match read_full(source, &mut head) {
        Ok(0) => Ok(Arrival::End),
        Ok(4) => behind_head(source, seats, at, &head, body),
        Ok(_) => Ok(Arrival::Fault(FrameFault::CutFrame { at })),
        Err(Failed) => Err(NoFrame::Failed),
    }
}

// Reads what follows a frame's head.
#[tactic(auto, using(crate::proofs::ArrivalLaws::body_laws))]
fn behind_head<S: Source>(
    source: &mut S,
    seats: u16,
    at: u64,
    head: &[u8],
    body: &mut Vec<u8>,
) -> Result<Arrival, NoFrame>
    requires { length head.now ≡ 4 }
    ensures next { IfOk result (λ arrival. OfKnown
        (λ bytes rest. NextFrame seats at (framing_of arrival body.new.items) (head.now ++ bytes)
        rest) (S.left source.old) (S.left source.new)) }
    ensures seat { (seat : ℕ) → result ≡ Ok (Arrival.Frame seat) → IsSeat seats seat }
    ensures later { S.faults source.old ≤ S.faults source.new }
    ensures failed { result ≡ Err NoFrame.Failed
        → Rose (S.faults source.old) (S.faults source.new) }
    ensures rose { S.faults source.old < S.faults source.new → result ≡ Err NoFrame.Failed }
{
    let seat = seat_of(head);
    let size = usize::from(size_of(head));
    if seat == 0 || seat > seats {
        return Ok(Arrival::Fault(FrameFault::NoSeat { at }));
    }
    match fill(source, size, body) {
        Ok(n) => {
            if n < size {
                return Ok(Arrival::Fault(FrameFault::CutFrame { at }));
            }
            Ok(Arrival::Frame(seat))
        }
        Err(none) => Err(none),
    }
}

// The seat that a head tells.
#[tactic(auto, using(crate::proofs::ArrivalLaws::two_laws))]
fn seat_of(head: &[u8]) -> u16
    requires { length head.now ≡ 4 }
    ensures { result ≡ from_be_bytes w16 (take 2 head.now) }
{
    u16::from_be_bytes([head[0], head[1]])
}

// How many bytes it tells.
#[tactic(auto, using(crate::proofs::ArrivalLaws::two_laws))]
fn size_of(head: &[u8]) -> u16
    requires { length head.now ≡ 4 }
    ensures { result ≡ from_be_bytes w16 (drop 2 head.now) }
{
    u16::from_be_bytes([head[2], head[3]])
}

// Reads so many bytes into `body`, and says how many there were; what is behind them is zero.
fn fill<S: Source>(source: &mut S, size: usize, body: &mut Vec<u8>) -> Result<usize, NoFrame>
    ensures size { OnOk result (length body.new.items ≡ size) }
    ensures within { IfOk result (λ n. n ≤ size) }
    ensures bytes { IfOk result (λ n. Consumes (S.left source.old) (S.left source.new)
        (take n body.new.items)) }
    ensures ended { IfOk result (λ n. n < size → IsAtEnd (S.left source.new)) }
    ensures later { S.faults source.old ≤ S.faults source.new }
    ensures failed { result ≡ Err NoFrame.Failed
        → Rose (S.faults source.old) (S.faults source.new) }
    ensures rose { S.faults source.old < S.faults source.new → result ≡ Err NoFrame.Failed }
{
    body.clear();
    let Ok(()) = body.resize(size, 0) else {
        return Err(NoFrame::Memory);
    };
    match read_full(source, body.as_mut_slice()) {
        Ok(n) => Ok(n),
        Err(Failed) => Err(NoFrame::Failed),
    }
}

ghost use Rattle.std.specs.Prelude.{◌≡◌, ◌<◌, ◌≤◌, None, length};
ghost use Rattle.pgn_workers.specs.Parts.{Part, part, HalvesMayHaveRun, MayHaveRun, MayStillRun};

use crate::meeting::Meeting;
use crate::{Work, run_in_turns};
use std::alloc::AllocError;
use std::sync::Wait;
use std::thread::{Threads, join_mut};

/// Has workers take turns until all are over, or one is refused memory: each has a thread of its own, while threads can be had; workers for
/// which no thread can be started take turns on the one that they share.
#[cycle(halves)]
pub fn run<W: Send, A: Send, C: Work<W, A> + Sync, R: Threads + Wait + Sync>(
    rt: &R,
    work: &C,
    workers: &mut [W],
    hand: &mut A,
) -> Result<(), AllocError>
    requires begins { C.begins work.now (part workers.old hand.old) }
    ensures { C.ran work.now (part workers.old hand.old) (part workers.new hand.new) result }
{
    if workers.len() <= 1 {
        return run_in_turns(rt, work, workers, hand);
    }
    let came = run_apart(rt, work, workers, hand);
    run_still(rt, work, workers, hand, came)
}

// Runs the two halves of workers side by side. Where they don't meet there is no answer, and nothing was done.
#[cycle(halves)]
fn run_apart<W: Send, A: Send, C: Work<W, A> + Sync, R: Threads + Wait + Sync>(
    rt: &R,
    work: &C,
    workers: &mut [W],
    hand: &mut A,
) -> Option<Result<(), AllocError>>
    requires some { 2 ≤ length workers.old }
    requires begins { C.begins work.now (part workers.old hand.old) }
    ensures { MayStillRun (C.begins work.now) (C.ran work.now) (part workers.old hand.old)
        (part workers.new hand.new) result }
{
    work.laws();
    let (left, right) = workers.split_at_mut(workers.len() / 2);
    let mut other = work.cut(hand, left.len());
    let came = join_halves(rt, work, left, hand, right, &mut other);
    let answer = run_halves(rt, work, left, hand, right, &mut other, came);
    work.join(hand, other);
    answer
}

// Takes each half to a thread of its own, where they meet: the left one is on the new thread, and the caller waits for it before it runs
// the right one. Where it could have no thread it calls the left one itself, after its own half.
#[cycle(halves)]
fn join_halves<W: Send, A: Send, C: Work<W, A> + Sync, R: Threads + Wait + Sync>(
    rt: &R,
    work: &C,
    left: &mut [W],
    hand: &mut A,
    right: &mut [W],
    other: &mut A,
) -> (
    Option<Result<(), AllocError>>,
    Option<Result<(), AllocError>>,
)
    requires some { (0 < length left.old) × (0 < length right.old) }
    requires left { C.begins work.now (part left.old hand.old) }
    requires right { C.begins work.now (part right.old other.old) }
    ensures left { MayHaveRun (C.ran work.now) (part left.old hand.old) (part left.new hand.new)
        result.0 }
    ensures right { MayHaveRun (C.ran work.now) (part right.old other.old)
        (part right.new other.new) result.1 }
{
    let meeting = Meeting::new();
    join_mut(
        rt,
        &mut || -> Option<Result<(), AllocError>>
            requires { C.begins work.now (part left.now hand.now) }
            ensures { MayHaveRun (C.ran work.entry.now) (part left.entry.now hand.entry.now)
                (part left.exit.now hand.exit.now) result }
        { run_met(rt, work, meeting.comes(), left, hand) },
        &mut || -> Option<Result<(), AllocError>>
            requires { C.begins work.now (part right.now other.now) }
            ensures { MayHaveRun (C.ran work.entry.now) (part right.entry.now other.entry.now)
                (part right.exit.now other.exit.now) result }
        { run_met(rt, work, meeting.expects(rt), right, other) },
    )
}

// Runs a half that has met the other one.
#[cycle(halves)]
fn run_met<W: Send, A: Send, C: Work<W, A> + Sync, R: Threads + Wait + Sync>(
    rt: &R,
    work: &C,
    met: bool,
    workers: &mut [W],
    hand: &mut A,
) -> Option<Result<(), AllocError>>
    requires begins { C.begins work.now (part workers.old hand.old) }
    ensures { MayHaveRun (C.ran work.now) (part workers.old hand.old)
        (part workers.new hand.new) result }
{
    if !met {
        return None;
    }
    Some(run(rt, work, workers, hand))
}

// Runs what has not run of two halves: each has, or is as it was. Who takes the word decides for both, so that none runs alone; but no
// contract knows that, so a half that did not run takes turns where the other one did.
fn run_halves<W, A, C: Work<W, A>, R: Wait>(
    rt: &R,
    work: &C,
    left: &mut [W],
    hand: &mut A,
    right: &mut [W],
    other: &mut A,
    came: (
        Option<Result<(), AllocError>>,
        Option<Result<(), AllocError>>,
    ),
) -> Option<Result<(), AllocError>>
    requires left { came.0 ≡ None → C.begins work.now (part left.old hand.old) }
    requires right { came.1 ≡ None → C.begins work.now (part right.old other.old) }
    ensures { (l r : Part W A) → MayHaveRun (C.ran work.now) l (part left.old hand.old) came.0
        → MayHaveRun (C.ran work.now) r (part right.old other.old) came.1
        → HalvesMayHaveRun (C.ran work.now) l (part left.new hand.new) r (part right.new other.new) result }
{
    match came {
        (None, None) => None,
        (first, second) => {
            let first = run_still(rt, work, left, hand, first);
            let second = run_still(rt, work, right, other, second);
            Some(first.and(second))
        }
    }
}

// Has a part take turns on the caller's thread that has not run yet.
fn run_still<W, A, C: Work<W, A>, R: Wait>(
    rt: &R,
    work: &C,
    workers: &mut [W],
    hand: &mut A,
    came: Option<Result<(), AllocError>>,
) -> Result<(), AllocError>
    requires begins { came ≡ None → C.begins work.now (part workers.old hand.old) }
    ensures { (old : Part W A)
        → MayStillRun (C.begins work.now) (C.ran work.now) old (part workers.old hand.old) came
        → C.ran work.now old (part workers.new hand.new) result }
{
    match came {
        Some(answer) => answer,
        None => run_in_turns(rt, work, workers, hand),
    }
}

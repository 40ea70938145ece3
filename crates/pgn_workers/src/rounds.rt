ghost use Rattle.std.specs.Prelude.{◌≡◌, Ok, OnOk, All};
ghost use Rattle.pgn_workers.specs.Parts.{part};

use crate::turn::both_turns;
use crate::{Pause, Turn, Work};
use std::alloc::AllocError;
use std::sync::Wait;

/// Has workers take turns on the caller's thread until all are over, or one is refused memory.
pub fn run_in_turns<W, A, C: Work<W, A>, R: Wait>(
    rt: &R,
    work: &C,
    workers: &mut [W],
    hand: &mut A,
) -> Result<(), AllocError>
    requires begins { C.begins work.now (part workers.old hand.old) }
    ensures { C.ran work.now (part workers.old hand.old) (part workers.new hand.new) result }
{
    work.laws();
    if workers.len() == 0 {
        return work.end(workers, hand, Ok(()));
    }
    let rounds = take_rounds(rt, work, workers, hand);
    work.end(workers, hand, rounds)
}

// Round after round.
fn take_rounds<W, A, C: Work<W, A>, R: Wait>(
    rt: &R,
    work: &C,
    workers: &mut [W],
    hand: &mut A,
) -> Result<(), AllocError>
    requires goes { C.goes work.now (part workers.old hand.old) }
    ensures took { C.took work.now (part workers.old hand.old) (part workers.new hand.new) }
    ensures over { OnOk result (All (C.over work.now) workers.new) }
{
    work.laws();
    let mut waits = 0;
    for _ in rt.forever() {
        match take_round(work, workers, hand)? {
            Turn::Ended => return Ok(()),
            turn => waits = wait_behind(work, workers, hand, turn, waits),
        }
    }
    unreachable!()
}

// Waits, where the round gave nothing. So many rounds in a row gave nothing before it; answers how many with it.
fn wait_behind<W, A, C: Work<W, A>>(
    work: &C,
    workers: &mut [W],
    hand: &mut A,
    turn: Turn,
    waits: u32,
) -> u32
    requires goes { C.goes work.now (part workers.old hand.old) }
    requires ready { All (C.ready work.now) workers.old }
    ensures took { C.took work.now (part workers.old hand.old) (part workers.new hand.new) }
    ensures ready { All (C.ready work.now) workers.new }
{
    work.laws();
    let heard = match turn {
        Turn::Did => return 0,
        Turn::Heard => true,
        Turn::Waited | Turn::Ended => false,
    };
    work.wait(workers, hand, Pause { heard, waits })
}

// A turn of each worker. After a refusal the others have had their turn too.
fn take_round<W, A, C: Work<W, A>>(
    work: &C,
    workers: &mut [W],
    hand: &mut A,
) -> Result<Turn, AllocError>
    requires goes { C.goes work.now (part workers.old hand.old) }
    ensures took { C.took work.now (part workers.old hand.old) (part workers.new hand.new) }
    ensures ready { OnOk result (All (C.ready work.now) workers.new) }
    ensures over { result ≡ Ok Turn.Ended → All (C.over work.now) workers.new }
{
    work.laws();
    if workers.len() == 0 {
        return Ok(Turn::Ended);
    }
    if workers.len() == 1 {
        return work.turn(&mut workers[0], hand);
    }
    let (left, right) = workers.split_at_mut(workers.len() / 2);
    let first = take_round(work, left, hand);
    let second = take_round(work, right, hand);
    both_turns(first, second)
}

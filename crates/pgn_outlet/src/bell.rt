use crossbeam_utils::CachePadded;
use std::sync::Wait;
use std::sync::atomic::{AtomicU64, Ordering};

// What is in the word: nobody is about to doze; or somebody is, or dozes.
const QUIET: u64 = 0;

const ARMED: u64 = 1;

/// A bell for one who waits for what others push. No ring is lost: who dozes arms it first and then looks at what it waits for, and who
/// rings has first done what that one looks for. No clause sees any of it.
#[derive(Drop)]
pub struct Bell {
    word: CachePadded<AtomicU64>,
}

impl Bell {
    /// A bell that nobody has armed.
    pub fn new() -> Bell {
        Bell {
            word: CachePadded::new(AtomicU64::new(QUIET)),
        }
    }

    /// Who calls it is about to doze: from now on who rings counts. Look once more at all that you wait for before you doze. No clause sees
    /// that a bell rings.
    pub fn arm(&self) {
        self.word.store(ARMED, Ordering::SeqCst);
    }

    /// Rings: who dozes wakes, and who has armed it does not begin to doze. Call it behind what that one waits for. Where nobody armed it,
    /// it is a load.
    pub fn ring(&self) {
        if self.word.load(Ordering::SeqCst) != QUIET {
            self.word.store(QUIET, Ordering::SeqCst);
            self.word.wake_all();
        }
    }

    /// Sleeps until the bell rings; at once it returns where it has rung since it was armed, or was not armed. It may return for no reason.
    /// No clause sees that the thread sleeps, or how long.
    pub fn doze<R: Wait>(&self, rt: &R) {
        self.word.park(rt, ARMED as u32);
    }
}

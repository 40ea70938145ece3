ghost use Rattle.std.specs.Prelude.{◌≡◌, ◌<◌, length, IfOk};

use std::alloc::{AllocError, Global};
use std::sync::Wait;
use std::sync::atomic::{AtomicU64, Ordering};
use std::time::Duration;

// What is in a bell's word: nobody is about to doze; or somebody is, or dozes.
const QUIET: u64 = 0;

const ARMED: u64 = 1;

/// A bell for each seat, by which a session that dozes is woken. None is lost: who dozes arms its bell first and then looks at what it waits
/// for, and who rings has first done what that one looks for. A word that is ARMED is one of `armed`, which is counted before and no longer
/// than that, so that 0 there says that no bell is armed. No clause sees any of it.
#[derive(Drop)]
pub(crate) struct Bells {
    pub(crate) words: Vec<AtomicU64>,
    armed: AtomicU64,
}

impl Bells {
    /// Quiet ones, for so many seats.
    pub(crate) fn open(alloc: Global, seats: usize) -> Result<Bells, AllocError>
        ensures { IfOk result (λ bells. length bells.words.items ≡ seats) }
    {
        let words = quiet_words(alloc, seats)?;
        Ok(Bells {
            words,
            armed: AtomicU64::new(0),
        })
    }

    /// From now on who rings this one counts.
    pub(crate) fn arm(&self, seat: u32)
        requires { seat < length self.now.words.items }
    {
        self.armed.fetch_add(1, Ordering::SeqCst);
        if self.words[seat as usize].swap(ARMED, Ordering::SeqCst) == ARMED {
            self.armed.fetch_sub(1, Ordering::SeqCst);
        }
    }

    /// Rings one: who has armed it dozes no longer.
    pub(crate) fn ring(&self, seat: u32)
        requires { seat < length self.now.words.items }
    {
        self.ring_word(&self.words[seat as usize]);
    }

    /// Rings each that is armed.
    pub(crate) fn ring_all(&self) {
        if self.armed.load(Ordering::SeqCst) == 0 {
            return;
        }
        for word in &self.words {
            self.ring_word(word);
        }
    }

    /// Sleeps while this one is armed, for so long at most, and quiets it.
    pub(crate) fn doze<R: Wait>(&self, rt: &R, seat: u32, time: Duration)
        requires { seat < length self.now.words.items }
    {
        let word = &self.words[seat as usize];
        word.park_timeout(rt, ARMED as u32, time);
        self.quiet(word);
    }

    // Rings one of the bells.
    fn ring_word(&self, word: &AtomicU64) {
        if word.load(Ordering::SeqCst) != QUIET && self.quiet(word) {
            word.wake_all();
        }
    }

    // Quiets one of the bells: whether it was armed.
    fn quiet(&self, word: &AtomicU64) -> bool {
        let was_armed = word.swap(QUIET, Ordering::SeqCst) == ARMED;
        if was_armed {
            self.armed.fetch_sub(1, Ordering::SeqCst);
        }
        was_armed
    }
}

// So many words of which none is armed.
fn quiet_words(alloc: Global, count: usize) -> Result<Vec<AtomicU64>, AllocError>
    ensures { IfOk result (λ words. length words.items ≡ count) }
{
    let mut words = Vec::with_capacity(alloc, count)?;
    for _made in 0..count {
        words.push(AtomicU64::new(QUIET))?;
    }
    Ok(words)
}

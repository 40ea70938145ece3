use std::sync::Wait;
use std::sync::atomic::{AtomicU64, Ordering};
use std::time::Duration;

// What is in the word: nothing yet; that the half on the new thread has come; or that the caller has gone on without it.
const NOBODY: u64 = 0;

const HERE: u64 = 1;

const GONE: u64 = 2;

// How often the caller looks for the new thread. Behind each look it sleeps until the word changes, a millisecond at most behind the first
// and twice as long behind each further one: a quarter of a second in all. So it never gives way to others while it waits, and where many
// wait at once, they don't wake for nothing again and again.
const LOOKS_TO_MEET: u32 = 8;

/// A word on which two arms of some work meet before either begins: the one on a new thread, which calls `comes`, and the caller's, which
/// calls `expects`. Where no thread could be had they don't meet, and neither begins: a join then runs the first arm behind the second, and
/// `comes` tells it that it is too late. Each of the two is called once. No contract knows who was first at the word.
#[derive(Drop)]
pub struct Meeting {
    word: AtomicU64,
}

impl Meeting {
    /// One to which nobody has come.
    pub fn new() -> Meeting {
        Meeting {
            word: AtomicU64::new(NOBODY),
        }
    }

    /// The arm on the new thread: whether it may begin, since the caller has not gone on without it.
    pub fn comes(&self) -> bool {
        takes(&self.word, HERE)
    }

    /// The caller's arm, which sleeps until the other one has come, for a quarter of a second at most: whether it may begin, since that one
    /// has come in time.
    pub fn expects<R: Wait>(&self, rt: &R) -> bool {
        is_met(rt, &self.word) || !takes(&self.word, GONE)
    }
}

// Whether the other half comes in time.
fn is_met<R: Wait>(rt: &R, word: &AtomicU64) -> bool {
    for looks in 0..LOOKS_TO_MEET {
        if word.load(Ordering::SeqCst) != NOBODY {
            return true;
        }
        word.park_timeout(rt, NOBODY as u32, Duration::from_millis(1 << looks));
    }
    false
}

// Puts this into the word, where nothing is in it yet, and wakes who sleeps on it.
fn takes(word: &AtomicU64, who: u64) -> bool {
    let taken = word.compare_exchange(NOBODY, who, Ordering::SeqCst, Ordering::SeqCst);
    word.wake_all();
    taken.is_ok()
}

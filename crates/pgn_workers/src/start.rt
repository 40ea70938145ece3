use crate::Meeting;
use std::sync::Wait;
use std::sync::atomic::{AtomicU64, Ordering};
use std::time::Duration;

// How often who waits looks, a millisecond at most each time: ten seconds.
const LOOKS: u32 = 10_000;

/// Where two arms of some work meet before either begins, as `Meeting` has it, but with more patience, for work that can only end without the
/// other arm: on a machine with much to do a new thread may begin late.
#[derive(Drop)]
pub struct Start {
    here: AtomicU64,
    meeting: Meeting,
}

impl Start {
    /// One to which nobody has come.
    pub fn new() -> Start {
        Start {
            here: AtomicU64::new(0),
            meeting: Meeting::new(),
        }
    }

    /// The arm on the new thread: whether it may begin, since the other one has not gone on without it.
    pub fn comes(&self) -> bool {
        self.here.store(1, Ordering::SeqCst);
        self.here.wake_all();
        self.meeting.comes()
    }

    /// The other arm, which waits for it: whether it may begin, since that one has come in time.
    pub fn expects<R: Wait>(&self, rt: &R) -> bool {
        wait_for(rt, &self.here);
        self.meeting.expects(rt)
    }
}

// Waits until the word is set, or the time is over.
fn wait_for<R: Wait>(rt: &R, word: &AtomicU64) {
    for _ in 0..LOOKS {
        if word.load(Ordering::SeqCst) != 0 {
            return;
        }
        word.park_timeout(rt, 0, Duration::from_millis(1));
    }
}

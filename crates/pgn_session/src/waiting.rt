ghost use Rattle.std.specs.Prelude.{◌≡◌, ◌+◌, ◌<◌, ◌≤◌, ℕ, length};
ghost use Rattle.pgn_session.specs.Runs.{slept};
ghost use Rattle.pgn_session.specs.Sleep.{IsAwaitedBelow};
ghost use Rattle.pgn_session.specs.declared.turn.TheConstants.{LONGEST_SLEEP};

use crate::{LONGEST_SLEEP, Session};
use pgn_answers::BlockState;
use pgn_hub::{Hub, PassView};
use std::sync::Wait;
use std::thread;
use std::time::{Clock, Duration, Instant};

// So many waits in a row give way, and the ones behind them sleep.
const TURNS_BEFORE_SLEEP: u32 = 64;

// The first sleep on a flag, in microseconds; each is twice as long as the one before, up to the longest.
const FIRST_SLEEP: u64 = 50;

// The longest sleep on a flag.
const LONGEST_REST: u64 = 16_000;

// The longest sleep on a flag of who has to look at its wake too.
const READER_SLEEP: u64 = 1_000;

// So many sleeps of a session that reads are shorter than that.
const SHORT_SLEEPS: u32 = 5;

// So many sleeps come before a session that reads arms its bell: who rings the bells of many takes as long as several of their looks do.
const SLEEPS_BEFORE_BELL: u32 = SHORT_SLEEPS + 3;

/// How many waits in a row are taken to have come before the next one, where so many have: a session that has read behind the last goes on
/// with long looks, so that one that reads again and again arms no bell.
pub fn waits_behind(waits: u32, has_read: bool) -> u32 {
    if has_read {
        waits.min(TURNS_BEFORE_SLEEP + SHORT_SLEEPS)
    } else {
        waits
    }
}

// How long a sleep on a flag is that has so many before it in a row, in microseconds.
fn sleep_of(sleeps: u32, longest: u64) -> u64
    ensures { result ≤ longest }
{
    (FIRST_SLEEP << sleeps.min(9)).min(longest)
}

// Whether the thread has given way so often that it sleeps: how often it slept before, in a row.
pub(crate) fn sleeps_of(waits: u32) -> Option<u32> {
    waits.checked_sub(TURNS_BEFORE_SLEEP)
}

// How long sessions sleep that take turns on one thread.
pub(crate) fn sleep_together_of(sleeps: u32) -> u64
    ensures { result ≤ LONGEST_SLEEP }
{
    sleep_of(sleeps, READER_SLEEP)
}

// A session waits for its flag, and where it listens and may read, for its wake. It looks at both between two waits. Behind long looks in
// vain it sleeps on its bell: the one wait arms it, and the next one, behind the look at flag and wake, dozes.
impl<P: PassView + Drop> Session<P> {
    // Waits, where so many waits came before in a row.
    pub(crate) fn wait_once<H: Hub<Pass = P>, R: Wait + Clock>(
        &mut self,
        rt: &R,
        hub: &H,
        waits: u32,
    )
        requires own { H.is_pass hub.now self.old.pass }
        requires ends { self.old.plan.first_end + self.old.plan.sessions ≤ (H.shape hub.now).flags }
        requires awaited { IsAwaitedBelow (H.shape hub.now).flags self.old.doing }
        ensures { (micros : ℕ) × (micros ≤ LONGEST_SLEEP) × (self.new ≡ slept micros self.old) }
    {
        let micros = self.sleep_once(rt, hub, waits);
        self.sleep_over(micros);
    }

    // Waits, and counts nothing: answers how many microseconds are to be counted.
    fn sleep_once<H: Hub<Pass = P>, R: Wait + Clock>(&self, rt: &R, hub: &H, waits: u32) -> u64
        requires own { H.is_pass hub.now self.now.pass }
        requires ends { self.now.plan.first_end + self.now.plan.sessions ≤ (H.shape hub.now).flags }
        requires awaited { IsAwaitedBelow (H.shape hub.now).flags self.now.doing }
        ensures { result ≤ LONGEST_SLEEP }
    {
        let Some(sleeps) = sleeps_of(waits) else {
            thread::yield_now();
            return 0;
        };
        if !self.may_read() {
            return self.sleep_on_flag(rt, hub, sleep_of(sleeps, LONGEST_REST));
        }
        match sleeps.checked_sub(SLEEPS_BEFORE_BELL) {
            None => self.sleep_on_flag(rt, hub, sleep_of(sleeps, READER_SLEEP)),
            Some(rounds) => self.sleep_on_bell(rt, hub, rounds),
        }
    }

    // Whether it reads where it is woken.
    fn may_read(&self) -> bool {
        self.pass.mark().is_some() && self.block.state() == BlockState::Idle
    }

    // The session's seat.
    fn seat<H: Hub<Pass = P>>(&self, hub: &H) -> u32
        requires own { H.is_pass hub.now self.now.pass }
        ensures { result < length (H.shape hub.now).seats }
    {
        self.pass.session().get() - 1
    }

    // Arms the bell in one round, and dozes in the next.
    fn sleep_on_bell<H: Hub<Pass = P>, R: Wait + Clock>(&self, rt: &R, hub: &H, rounds: u32) -> u64
        requires own { H.is_pass hub.now self.now.pass }
        ensures { result ≤ LONGEST_SLEEP }
    {
        let seat = self.seat(hub);
        if rounds % 2 == 0 {
            hub.arm(seat);
            return 0;
        }
        let longest = self.left_of(LONGEST_SLEEP);
        if longest == 0 {
            return 0;
        }
        doze(rt, hub, seat, longest)
    }
}

// Dozes for so many microseconds at most: answers how many it was by the clock. Where the clock can't be read it does not doze.
fn doze<H: Hub, R: Wait + Clock>(rt: &R, hub: &H, seat: u32, longest: u64) -> u64
    requires seat { seat < length (H.shape hub.now).seats }
    ensures { result ≤ longest }
{
    let Some(begun) = time_of(rt) else {
        thread::yield_now();
        return 0;
    };
    hub.doze(rt, seat, Duration::from_micros(longest));
    match time_of(rt) {
        Some(ended) => micros_of(ended.duration_since(begun)).min(longest),
        None => 0,
    }
}

// The time now, where the clock can be read.
fn time_of<R: Clock>(rt: &R) -> Option<Instant> {
    Instant::now(rt).ok()
}

// The whole microseconds of a time, as many as a number has.
fn micros_of(time: Duration) -> u64 {
    u64::try_from(time.as_micros()).unwrap_or(u64::MAX)
}

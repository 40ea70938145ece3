ghost use Rattle.std.specs.Prelude.{◌≡◌, ◌+◌, ◌<◌, ◌≤◌, min};
ghost use Rattle.pgn_hub.specs.Shape.{Shape};
ghost use Rattle.pgn_session.specs.Standing.{IsServedBy};
ghost use Rattle.pgn_session.specs.Runs.{slept};
ghost use Rattle.pgn_session.specs.Sleep.{slept_looks, slept_for, IsAwaitedBelow};
ghost use Rattle.pgn_session.specs.Whole.{HasAnswer, HasRest};

use crate::{Doing, Session};
use pgn_hub::{Hub, PassView};
use std::sync::Wait;
use std::time::Duration;

// Between two looks at a flag a session may sleep. A flag that was raised stays so: where the look behind a sleep finds nothing, no look in
// that time would have found it. So the sleep counts as one look a microsecond, and the last look that the patience allows is made.
impl<P: PassView + Drop> Session<P> {
    /// Sleeps on the flag that the session waits for, and counts nothing: so many microseconds at most, and not longer than looks of its
    /// patience are left. A raise ends it. Answers for how many microseconds at most, and 0 where it waits for none.
    pub fn sleep<H: Hub<Pass = P>, R: Wait>(&self, rt: &R, hub: &H, micros: u64) -> u64
        requires served { IsServedBy (H.shape hub.now) self.now.section self.now.plan }
        requires rested { HasRest (H.shape hub.now) P.known self.now }
        ensures slept { result ≡ slept_for self.now.plan self.now.patience micros self.now.doing }
        ensures within { result ≤ micros }
    {
        self.sleep_on_flag(rt, hub, micros)
    }

    // Sleeps on the flag that is awaited, or at the end on the first end flag that was not found.
    pub(crate) fn sleep_on_flag<H: Hub<Pass = P>, R: Wait>(
        &self,
        rt: &R,
        hub: &H,
        micros: u64,
    ) -> u64
        requires ends { self.now.plan.first_end + self.now.plan.sessions ≤ (H.shape hub.now).flags }
        requires awaited { IsAwaitedBelow (H.shape hub.now).flags self.now.doing }
        ensures { result ≡ slept_for self.now.plan self.now.patience micros self.now.doing }
    {
        match self.doing {
            Doing::Awaiting { flag, looks } => {
                sleep_on(rt, hub, flag, micros, self.patience.saturating_sub(looks))
            }
            Doing::Ending { found, looks } if found < self.plan.sessions => {
                let flag = self.plan.first_end + found;
                sleep_on(rt, hub, flag, micros, self.patience.saturating_sub(looks))
            }
            _ => 0,
        }
    }

    // How long a sleep of so many microseconds may be: not longer than looks of its patience are left, and 0 where it waits for no flag.
    pub(crate) fn left_of(&self, micros: u64) -> u64
        ensures { result ≤ micros }
    {
        match self.doing {
            Doing::Awaiting { looks, .. } => micros.min(self.patience.saturating_sub(looks)),
            Doing::Ending { found, looks } if found < self.plan.sessions => {
                micros.min(self.patience.saturating_sub(looks))
            }
            _ => 0,
        }
    }

    /// Counts a sleep of so many microseconds. Only who has slept so long on a flag since the session's last look may call this: on its
    /// own one, or on that of a session that takes turns with it on one thread. The count leaves one look of the patience, so that the
    /// last one is made. No clause sees whether anybody slept, and a caller that did not makes patience shorter.
    pub fn sleep_over(&mut self, micros: u64)
        ensures answered { (shape : Shape) → HasAnswer shape P.known self.old → HasAnswer shape P.known self.new }
        ensures rested { (shape : Shape) → HasRest shape P.known self.old → HasRest shape P.known self.new }
        ensures same { self.new ≡ slept micros self.old }
    {
        self.count_sleep(micros);
    }

    // Counts the looks that were slept over.
    fn count_sleep(&mut self, micros: u64)
        ensures { self.new ≡ slept micros self.old }
    {
        let patience = self.patience;
        match &mut self.doing {
            Doing::Awaiting { looks, .. } => *looks = looks_after(patience, *looks, micros),
            Doing::Ending { looks, .. } => *looks = looks_after(patience, *looks, micros),
            _ => {}
        }
    }
}

// Sleeps on this flag for so many microseconds at most, and not longer than so many looks, which are left.
fn sleep_on<H: Hub, R: Wait>(rt: &R, hub: &H, flag: u32, micros: u64, left: u64) -> u64
    requires { flag < (H.shape hub.now).flags }
    ensures { result ≡ min micros left }
{
    let longest = micros.min(left);
    hub.rest(rt, flag, Duration::from_micros(longest));
    longest
}

// How many looks have given nothing after a sleep of so many microseconds.
fn looks_after(patience: u64, looks: u64, micros: u64) -> u64
    ensures { result ≡ slept_looks patience looks micros }
{
    let left = patience.saturating_sub(1).saturating_sub(looks);
    looks + micros.saturating_sub(1).min(left)
}

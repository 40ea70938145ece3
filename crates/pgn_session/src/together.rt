ghost use Rattle.std.specs.Prelude.{◌≡◌, ◌≢◌, ◌≤◌, map, length, All};
ghost use Rattle.pgn_session.specs.Runs.{HasGivenUp, HaveSlept, IsHeld, IsReady, script_of, shown_of, slept};
ghost use Rattle.pgn_session.specs.declared.turn.TheConstants.{LONGEST_SLEEP};

use crate::waiting::{sleep_together_of, sleeps_of};
use crate::{Session, Step};
use pgn_hub::{Hub, PassView};
use std::sync::Wait;
use std::thread;
use std::time::Clock;

/// Waits after a round of turns of all these sessions on one thread, in which none did more than wait: it gives way behind the first such
/// rounds, and then it sleeps. `waits` of them came before it in a row; answers how many there are with it, and 0 where the round gave
/// something.
pub fn wait_together<P: PassView + Drop, H: Hub<Pass = P>, R: Wait + Clock>(
    rt: &R,
    hub: &H,
    sessions: &mut [Session<P>],
    step: Step,
    waits: u32,
) -> u32
    requires ready { All (IsReady (H.is_pass hub.now) (H.shape hub.now) P.known) sessions.old }
    ensures ready { All (IsReady (H.is_pass hub.now) (H.shape hub.now) P.known) sessions.new }
    ensures scripts { map script_of sessions.new ≡ map script_of sessions.old }
    ensures shown { map shown_of sessions.new ≡ map shown_of sessions.old }
    ensures unslept { step ≢ Step.Waiting → sessions.new ≡ sessions.old }
    ensures waited { HaveSlept LONGEST_SLEEP sessions.old sessions.new }
{
    if step != Step::Waiting {
        return 0;
    }
    give_way(rt, hub, sessions, waits);
    waits.saturating_add(1)
}

// Gives way behind the first rounds in which none did more than wait, and sleeps behind the others. Several sessions that share the thread
// look at all that they wait for at least each millisecond.
fn give_way<P: PassView + Drop, H: Hub<Pass = P>, R: Wait + Clock>(
    rt: &R,
    hub: &H,
    sessions: &mut [Session<P>],
    waits: u32,
)
    requires ready { All (IsReady (H.is_pass hub.now) (H.shape hub.now) P.known) sessions.old }
    ensures ready { All (IsReady (H.is_pass hub.now) (H.shape hub.now) P.known) sessions.new }
    ensures waited { HaveSlept LONGEST_SLEEP sessions.old sessions.new }
{
    if sessions.len() == 1 {
        wait_alone(rt, hub, sessions, waits);
        return;
    }
    let Some(sleeps) = sleeps_of(waits) else {
        thread::yield_now();
        return;
    };
    rest_together(rt, hub, sessions, sleep_together_of(sleeps));
}

// Waits as the only session does that its thread has.
fn wait_alone<P: PassView + Drop, H: Hub<Pass = P>, R: Wait + Clock>(
    rt: &R,
    hub: &H,
    sessions: &mut [Session<P>],
    waits: u32,
)
    requires one { length sessions.old ≡ 1 }
    requires ready { All (IsReady (H.is_pass hub.now) (H.shape hub.now) P.known) sessions.old }
    ensures { HaveSlept LONGEST_SLEEP sessions.old sessions.new }
{
    sessions[0].wait_once(rt, hub, waits);
}

// Sleeps on the flag of one session, and counts the sleep for each: no flag falls, so no look of any of them would have found more than
// the one behind the sleep.
fn rest_together<P: PassView + Drop, H: Hub<Pass = P>, R: Wait>(
    rt: &R,
    hub: &H,
    sessions: &mut [Session<P>],
    micros: u64,
)
    requires ready { All (IsReady (H.is_pass hub.now) (H.shape hub.now) P.known) sessions.old }
    ensures ready { All (IsReady (H.is_pass hub.now) (H.shape hub.now) P.known) sessions.new }
    ensures waited { HaveSlept micros sessions.old sessions.new }
{
    let micros = sleep_on_one(rt, hub, sessions, micros);
    sleep_over_all(sessions, micros);
}

// Sleeps on the flag of the first session that waits for one: answers for how many microseconds at most.
fn sleep_on_one<P: PassView + Drop, H: Hub<Pass = P>, R: Wait>(
    rt: &R,
    hub: &H,
    sessions: &[Session<P>],
    micros: u64,
) -> u64
    requires { All (IsReady (H.is_pass hub.now) (H.shape hub.now) P.known) sessions.now }
    ensures { result ≤ micros }
{
    for session in sessions {
        let micros = session.sleep(rt, hub, micros);
        if micros > 0 {
            return micros;
        }
    }
    0
}

// Counts a sleep for each session.
fn sleep_over_all<P: PassView + Drop>(sessions: &mut [Session<P>], micros: u64)
    ensures { sessions.new ≡ map (slept micros) sessions.old }
{
    for session in sessions.iter_mut() {
        session.sleep_over(micros);
    }
}

/// Raises the end flag of each session after a refusal, so that no other waits for it.
pub fn give_up_all<P: PassView + Drop, H: Hub<Pass = P>>(hub: &H, sessions: &mut [Session<P>])
    requires held { All (IsHeld (H.is_pass hub.now) (H.shape hub.now)) sessions.old }
    ensures gave_up { All (HasGivenUp P.known) sessions.new }
    ensures scripts { map script_of sessions.new ≡ map script_of sessions.old }
    ensures shown { map shown_of sessions.new ≡ map shown_of sessions.old }
{
    for session in sessions.iter_mut() {
        session.give_up(hub);
    }
}

ghost use Rattle.std.specs.Prelude.{◌≡◌, OnErr, All};
ghost use Rattle.pgn_session.specs.Runs.{IsHeld, IsReady};
ghost use Rattle.pgn_threads.specs.Work.{HasTakenTurn, HaveEnded};

use pgn_hub::{Hub, PassView};
use pgn_session::{Session, Step, give_up_all, wait_together, waits_behind};
use pgn_workers::{Pause, Turn, Work};
use std::alloc::{AllocError, Global};
use std::sync::Wait;
use std::time::Clock;

// The sessions of a hub, as workers, and what they share.
#[derive(Drop)]
pub(crate) struct HubSessions<'a, R, H> {
    pub(crate) rt: &'a R,
    pub(crate) alloc: Global,
    pub(crate) hub: &'a H,
}

impl<P: PassView + Drop, H: Hub<Pass = P>, R: Wait + Clock> Work<Session<P>, ()>
    for HubSessions<'_, R, H> {
    ghost use Rattle.std.specs.Prelude.{All};
    ghost use Rattle.pgn_session.specs.Runs.{IsOver, IsReady};
    ghost use Rattle.pgn_threads.specs.Whole.{HaveRun};
    ghost use Rattle.pgn_threads.specs.Work.{AreReadyHalves, HaveTakenTurns};

    ghost begins = { λ c p. All (IsReady (H.is_pass c.hub.now) (H.shape c.hub.now) P.known) p.workers };

    ghost goes = { λ c p. All (IsReady (H.is_pass c.hub.now) (H.shape c.hub.now) P.known) p.workers };

    ghost took = { λ c p q. HaveTakenTurns (H.is_pass c.hub.now) (H.shape c.hub.now) p.workers q.workers };

    ghost ready = { λ c s. IsReady (H.is_pass c.hub.now) (H.shape c.hub.now) P.known s };

    ghost over = { λ c s. IsOver (H.is_pass c.hub.now) (H.shape c.hub.now) P.known s };

    ghost ran = { λ c p q answer. HaveRun (H.is_pass c.hub.now) (H.shape c.hub.now) P.known p.workers q.workers answer };

    ghost cut_in = { λ c p l r. AreReadyHalves (H.is_pass c.hub.now) (H.shape c.hub.now) P.known p.workers l.workers r.workers };

    ghost joined = { λ c l r h. Unit {0} };

    fn turn(&self, session: &mut Session<P>, hand: &mut ()) -> Result<Turn, AllocError> {
        let _hand = hand;
        take_turn(self.rt, self.alloc, self.hub, session)
    }

    fn wait(&self, sessions: &mut [Session<P>], hand: &mut (), pause: Pause) -> u32 {
        let _hand = hand;
        let waits = waits_behind(pause.waits, pause.heard);
        wait_together(self.rt, self.hub, sessions, Step::Waiting, waits)
    }

    fn end(
        &self,
        sessions: &mut [Session<P>],
        hand: &mut (),
        rounds: Result<(), AllocError>,
    ) -> Result<(), AllocError> {
        let _hand = hand;
        end_all(self.hub, sessions, rounds)
    }

    fn cut(&self, hand: &mut (), size: usize) {
        let _hand = hand;
        let _size = size;
    }

    fn join(&self, hand: &mut (), other: ()) {
        let _hand = hand;
        let _other = other;
    }

    fn laws(&self) {}
}

// A step of a session, with the reads before and behind it. What it has shown while it waited, it has heard.
pub(crate) fn take_turn<P: PassView + Drop, H: Hub<Pass = P>, R: Wait>(
    rt: &R,
    alloc: Global,
    hub: &H,
    session: &mut Session<P>,
) -> Result<Turn, AllocError>
    requires ready { IsReady (H.is_pass hub.now) (H.shape hub.now) P.known session.old }
    ensures { HasTakenTurn (H.is_pass hub.now) (H.shape hub.now) P.known session.old session.new result }
{
    let shown = session.items.len();
    let step = session.turn(rt, alloc, hub)?;
    Ok(as_turn(step, session.items.len() > shown))
}

// A step of a session as a turn. Where it waited, it may have heard something.
fn as_turn(step: Step, heard: bool) -> Turn
    ensures { result ≡ Turn.Ended → step ≡ Step.Ended }
{
    match step {
        Step::Did => Turn::Did,
        Step::Waiting => Turn::waited(heard),
        Step::Ended => Turn::Ended,
    }
}

// The end of sessions that are over, or one of which was refused memory: then all raise their end flags.
pub(crate) fn end_all<P: PassView + Drop, H: Hub<Pass = P>>(
    hub: &H,
    sessions: &mut [Session<P>],
    rounds: Result<(), AllocError>,
) -> Result<(), AllocError>
    requires held { OnErr rounds (All (IsHeld (H.is_pass hub.now) (H.shape hub.now)) sessions.old) }
    ensures { HaveEnded P.known sessions.old sessions.new rounds result }
{
    match rounds {
        Ok(()) => Ok(()),
        Err(_) => {
            give_up_all(hub, sessions);
            Err(AllocError)
        }
    }
}

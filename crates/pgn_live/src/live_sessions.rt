ghost use Rattle.std.specs.Prelude.{◌≡◌, true, OnErr, All};
ghost use Rattle.pgn_live.specs.Turns.{HasToldTurn, HaveEnded, IsToldBy, IsWhollyToldBy};
ghost use Rattle.pgn_outlet.specs.Passes.{IsPassOf, knows};
ghost use Rattle.pgn_outlet.specs.Rule.{MayPush};
ghost use Rattle.pgn_session.specs.Runs.{IsHeld, IsReady};

use crate::relay::Live;
use crate::telling::{PLACES, Telling, tell, told_so_far};
use pgn_hub::{Hub, PassView};
use pgn_session::{Session, Step, give_up_all, wait_together, waits_behind};
use pgn_workers::{Pause, Turn, Work};
use std::alloc::AllocError;
use std::sync::Wait;
use std::time::Clock;

// The sessions of a hub, as workers that tell what they record. Those of one thread share what they tell by.
impl<P: PassView + Drop, H: Hub<Pass = P>, R: Wait + Clock> Work<Session<P>, Telling>
    for Live<'_, R, H> {
    ghost use Rattle.pgn_session.specs.Runs.{IsOver, IsReady};
    ghost use Rattle.pgn_live.specs.Workers.{HandsWereJoined, PartHasGone, PartHasPlayed, PartMayGo, PartMayPlay, PartWasCut};

    ghost begins = { λ c p. PartMayPlay (H.is_pass c.hub.now) (H.shape c.hub.now) P.known c.outlet.now p };

    ghost goes = { λ c p. PartMayGo (H.is_pass c.hub.now) (H.shape c.hub.now) P.known c.outlet.now p };

    ghost took = { λ c p q. PartHasGone (H.is_pass c.hub.now) (H.shape c.hub.now) c.outlet.now p q };

    ghost ready = { λ c s. IsReady (H.is_pass c.hub.now) (H.shape c.hub.now) P.known s };

    ghost over = { λ c s. IsOver (H.is_pass c.hub.now) (H.shape c.hub.now) P.known s };

    ghost ran = { λ c p q answer. PartHasPlayed (H.is_pass c.hub.now) (H.shape c.hub.now) P.known c.outlet.now p q answer };

    ghost cut_in = { λ c p l r. PartWasCut (H.is_pass c.hub.now) (H.shape c.hub.now) P.known c.outlet.now p l r };

    ghost joined = { λ c l r h. HandsWereJoined c.outlet.now l r h };

    fn turn(&self, session: &mut Session<P>, telling: &mut Telling) -> Result<Turn, AllocError> {
        take_turn(self, session, telling)
    }

    fn wait(&self, sessions: &mut [Session<P>], telling: &mut Telling, pause: Pause) -> u32 {
        let _telling = telling;
        let waits = waits_behind(pause.waits, pause.heard);
        wait_together(self.rt, self.hub, sessions, Step::Waiting, waits)
    }

    fn end(
        &self,
        sessions: &mut [Session<P>],
        telling: &mut Telling,
        rounds: Result<(), AllocError>,
    ) -> Result<(), AllocError> {
        end_all(self.hub, sessions, &telling.told, rounds)
    }

    fn cut(&self, hand: &mut Telling, size: usize) -> Telling {
        Telling::new(self.outlet.cut(&mut hand.pass, size as u64))
    }

    fn join(&self, hand: &mut Telling, other: Telling) {
        let Telling { pass, .. } = other;
        self.outlet.whole(&mut hand.pass, pass);
    }

    fn laws(&self) {}
}

// A turn of a session, and what it recorded is told, and the writer's bell rung, also where the turn was refused memory. What it has told while it waited, it has heard.
pub(crate) fn take_turn<P: PassView + Drop, H: Hub<Pass = P>, R: Wait>(
    live: &Live<'_, R, H>,
    session: &mut Session<P>,
    telling: &mut Telling,
) -> Result<Turn, AllocError>
    requires own { IsPassOf live.now.outlet.now telling.old.pass }
    requires ready { IsReady (H.is_pass live.now.hub.now) (H.shape live.now.hub.now) P.known session.old }
    requires may { MayPush (knows telling.old.pass) session.old.section.no }
    requires told { IsToldBy telling.old.told (knows telling.old.pass) session.old }
    ensures own { IsPassOf live.now.outlet.now telling.new.pass }
    ensures told { HasToldTurn (H.is_pass live.now.hub.now) (H.shape live.now.hub.now) P.known
        session.old session.new telling.old.told telling.new.told (knows telling.old.pass) (knows telling.new.pass) result }
{
    let step = session.turn(live.rt, live.alloc, live.hub);
    let items = session.items.as_slice();
    let heard = tell(live, telling, session.section.no, items);
    if heard {
        live.relay.tell();
    }
    Ok(as_turn(step?, heard))
}

// A step of a session as a turn. Where it waited, it may have heard something.
fn as_turn(step: Step, heard: bool) -> Turn
    ensures { result ≡ Turn.Ended → step ≡ Step.Ended }
{
    match step {
        Step::Did => Turn::Did,
        Step::Waiting => Turn::waited(heard),
        Step::Ended => Turn::Ended,
    }
}

// The end of sessions that are over, or one of which was refused memory: then all raise their end flags. The error is also that not all
// was told.
pub(crate) fn end_all<P: PassView + Drop, H: Hub<Pass = P>>(
    hub: &H,
    sessions: &mut [Session<P>],
    told: &[usize; PLACES],
    rounds: Result<(), AllocError>,
) -> Result<(), AllocError>
    requires held { OnErr rounds (All (IsHeld (H.is_pass hub.now) (H.shape hub.now)) sessions.old) }
    ensures { HaveEnded P.known sessions.old sessions.new told.now rounds result }
{
    match rounds {
        Ok(()) => {
            if have_told(sessions, told) {
                return Ok(());
            }
            Err(AllocError)
        }
        Err(_) => {
            give_up_all(hub, sessions);
            Err(AllocError)
        }
    }
}

// Whether of each session so many items were told as it has recorded.
fn have_told<P: PassView + Drop>(sessions: &[Session<P>], told: &[usize; PLACES]) -> bool
    ensures { result ≡ true → All (IsWhollyToldBy told.now) sessions.now }
{
    for session in sessions {
        if !is_told(session, told) {
            return false;
        }
    }
    true
}

// Whether of one session so many items were told as it has recorded.
fn is_told<P: PassView + Drop>(session: &Session<P>, told: &[usize; PLACES]) -> bool
    ensures { result ≡ true → IsWhollyToldBy told.now session.now }
{
    session.items.len() <= told_so_far(told, session.section.no)
}

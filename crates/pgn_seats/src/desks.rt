ghost use Rattle.std.specs.Prelude.{◌≡◌, false, Ok, OnOk};
ghost use Rattle.pgn_outlet.specs.Passes.{IsPassOf, knows};
ghost use Rattle.pgn_outlet.specs.Rule.{MayPush};
ghost use Rattle.pgn_seats.specs.Workers.{HasSeat, HasTakenTurn, HaveSeats, StandsBy};

use crate::turn::take_turn;
use crate::{Desk, Service, Tells};
use pgn_hub::{Hub, PassView};
use pgn_workers::{Pause, Turn, Work};
use std::alloc::AllocError;
use std::sync::Wait;
use std::time::Duration;

// How long desks that share a thread sleep at most on the bell of the first of them.
const LONGEST_SHARED: u64 = 1;

impl<P: PassView + Drop, H: Hub<Pass = P>, R: Wait> Work<Desk<P>, Tells> for Service<'_, H, R> {
    ghost use Rattle.std.specs.Prelude.{◌≡◌};
    ghost use Rattle.pgn_session.specs.declared.doing.Doing.TheVariants.{Over};
    ghost use Rattle.pgn_seats.specs.Workers.{HandsWereJoined, PartHasGone, PartHasServed, PartMayGo, PartMayServe, PartWasCut};

    ghost begins = { λ c p. PartMayServe (H.is_pass c.hub.now) (H.shape c.hub.now) P.known c.inboxes.now c.outbox.now p };

    ghost goes = { λ c p. PartMayGo (H.is_pass c.hub.now) (H.shape c.hub.now) P.known c.inboxes.now c.outbox.now p };

    ghost took = { λ c p q. PartHasGone (H.is_pass c.hub.now) (H.shape c.hub.now) P.known c.inboxes.now c.outbox.now p q };

    ghost ready = { λ c desk. Unit {0} };

    ghost over = { λ c desk. desk.session.doing ≡ Over };

    ghost ran = { λ c p q answer. PartHasServed (H.is_pass c.hub.now) (H.shape c.hub.now) P.known c.inboxes.now c.outbox.now p q answer };

    ghost cut_in = { λ c p l r. PartWasCut (H.is_pass c.hub.now) (H.shape c.hub.now) P.known c.inboxes.now c.outbox.now p l r };

    ghost joined = { λ c l r h. HandsWereJoined c.outbox.now l r h };

    fn turn(&self, desk: &mut Desk<P>, tells: &mut Tells) -> Result<Turn, AllocError> {
        turn_at(self, desk, tells)
    }

    fn wait(&self, desks: &mut [Desk<P>], tells: &mut Tells, pause: Pause) -> u32 {
        let _tells = tells;
        wait_behind(self.rt, self.hub, desks, pause)
    }

    fn end(
        &self,
        desks: &mut [Desk<P>],
        tells: &mut Tells,
        rounds: Result<(), AllocError>,
    ) -> Result<(), AllocError> {
        let _desks = desks;
        end_desks(self.hub, tells.refused, rounds)
    }

    fn cut(&self, hand: &mut Tells, size: usize) -> Tells {
        Tells::new(self.outbox.cut(&mut hand.pass, size as u64))
    }

    fn join(&self, hand: &mut Tells, other: Tells) {
        let Tells { pass, .. } = other;
        self.outbox.whole(&mut hand.pass, pass);
    }

    fn laws(&self) {}
}

// A turn of a desk. Once one of those that share a thread was refused memory, or ends since another was, each is refused.
pub(crate) fn turn_at<P: PassView + Drop, H: Hub<Pass = P>, R: Wait>(
    service: &Service<'_, H, R>,
    desk: &mut Desk<P>,
    tells: &mut Tells,
) -> Result<Turn, AllocError>
    requires own { IsPassOf service.now.outbox.now tells.old.pass }
    requires may { MayPush (knows tells.old.pass) desk.old.session.section.no }
    requires stands { StandsBy (H.is_pass service.now.hub.now) (H.shape service.now.hub.now) P.known
        service.now.inboxes.now tells.old.refused (knows tells.old.pass) desk.old }
    ensures own { IsPassOf service.now.outbox.now tells.new.pass }
    ensures turned { HasTakenTurn (H.is_pass service.now.hub.now) (H.shape service.now.hub.now)
        P.known service.now.inboxes.now desk.old desk.new tells.old.refused tells.new.refused
        (knows tells.old.pass) (knows tells.new.pass) result }
{
    if tells.refused {
        return Err(AllocError);
    }
    let turn = take_turn(service, desk, &mut tells.pass);
    match turn {
        Ok(turn) => Ok(turn),
        Err(_) => {
            tells.refused = true;
            Err(AllocError)
        }
    }
}

// A wait behind a round in which nothing was done. Behind the first one the bell of the first desk is armed, and each looks once more; behind the
// next they doze on it. A desk alone on its thread so loses no ring: who rings has pushed before, or set a wake. Of desks that share one
// another's ring is not heard, and the doze ends within a millisecond.
pub(crate) fn wait_behind<P: PassView + Drop, H: Hub<Pass = P>, R: Wait>(
    rt: &R,
    hub: &H,
    desks: &[Desk<P>],
    pause: Pause,
) -> u32
    requires { HaveSeats (H.shape hub.now) desks.now }
{
    if pause.heard || desks.len() == 0 {
        return 0;
    }
    rest_at(rt, hub, &desks[0], desks.len() == 1, pause.waits)
}

// Arms the bell of a desk, where no round before has given nothing, and else dozes on it: until it rings, where the desk is alone on its thread.
fn rest_at<P: PassView + Drop, H: Hub<Pass = P>, R: Wait>(
    rt: &R,
    hub: &H,
    desk: &Desk<P>,
    is_alone: bool,
    waits: u32,
) -> u32
    requires { HasSeat (H.shape hub.now) desk.now }
{
    let seat = desk.session.section.no.get() - 1;
    if waits == 0 {
        hub.arm(seat);
        return 1;
    }
    let longest = if is_alone {
        Duration::MAX
    } else {
        Duration::from_millis(LONGEST_SHARED)
    };
    hub.doze(rt, seat, longest);
    0
}

// The end of desks that have all served their seats, or one of which was refused memory: then the service is called off, and all others end too.
pub(crate) fn end_desks<H: Hub>(
    hub: &H,
    refused: bool,
    rounds: Result<(), AllocError>,
) -> Result<(), AllocError>
    ensures { OnOk result ((rounds ≡ Ok tt) × (refused ≡ false)) }
{
    if rounds.is_ok() && !refused {
        return Ok(());
    }
    hub.call_off();
    Err(AllocError)
}

ghost use Rattle.std.specs.Prelude.{◌≡◌, Ok, OnOk};
ghost use Rattle.pgn_session.specs.Parts.{Begins};
ghost use Rattle.pgn_session.specs.Runs.{IsHeld, IsLawful, IsOver, IsReady, script_of};

use crate::{Session, Step};
use pgn_hub::{Hub, PassView};
use std::alloc::{AllocError, Global};
use std::sync::Wait;

/// The longest sleep that a wait counts, in microseconds.
pub const LONGEST_SLEEP: u64 = 1_000_000;

impl<P: PassView + Drop> Session<P> {
    /// A step, with a read before it where the next line asks for one, and a read behind it where the session was woken, unless it is over.
    /// The error is that memory did not suffice for one of them, or that the run was called off.
    #[tactic(auto, using(crate::proofs::LawfulLaws::turn_laws))]
    pub fn turn<H: Hub<Pass = P>, R: Wait>(
        &mut self,
        rt: &R,
        alloc: Global,
        hub: &H,
    ) -> Result<Step, AllocError>
        requires ready { IsReady (H.is_pass hub.now) (H.shape hub.now) P.known self.old }
        ensures held { IsHeld (H.is_pass hub.now) (H.shape hub.now) self.new }
        ensures ready { OnOk result (IsReady (H.is_pass hub.now) (H.shape hub.now) P.known self.new) }
        ensures over { result ≡ Ok Step.Ended → IsOver (H.is_pass hub.now) (H.shape hub.now) P.known self.new }
        ensures script { script_of self.new ≡ script_of self.old }
        ensures grows { Begins self.old.items.items self.new.items.items }
        ensures lawful { IsLawful (H.shape hub.now) self.new }
    {
        self.read_before_line(alloc, hub)?;
        let step = self.step(rt, alloc, hub)?;
        if step == Step::Ended {
            return Ok(Step::Ended);
        }
        let _done = self.idle(alloc, hub)?;
        Ok(step)
    }
}

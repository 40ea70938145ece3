ghost use Rattle.std.specs.Prelude.{◌≡◌, ◌↔◌, IsTrue, OnOk, OnErr};
ghost use Rattle.pgn_answers.specs.declared.block_state.BlockState.TheVariants.{Idle};
ghost use Rattle.pgn_hub.specs.Calls.{HasLearned};
ghost use Rattle.pgn_model.specs.Trace.{reads_first};
ghost use Rattle.pgn_session.specs.FirstRead.{IsToReadFirst, HasReadFirst, HasReadTold};
ghost use Rattle.pgn_session.specs.Parts.{Begins};
ghost use Rattle.pgn_session.specs.Whole.{FinishesAs, HasRest};

use crate::reading::{Reading, read_on};
use crate::{Doing, Session};
use pgn_answers::BlockState;
use pgn_base::Command;
use pgn_hub::{Hub, PassView};
use pgn_language::Act;
use std::alloc::{AllocError, Global};

// A listener that nobody woke may stand behind what was sent before, and the next line may add a channel on which some of that was sent.
// So what was sent before is read with the set as it is, before such a line: a LISTEN outside a block, or one that opens a block.
impl<P: PassView + Drop> Session<P> {
    /// Reads before a line that listens or opens a block, where no block is open. The error is that memory did not suffice; then the
    /// mark stays.
    pub fn read_before_line<H: Hub<Pass = P>>(
        &mut self,
        alloc: Global,
        hub: &H,
    ) -> Result<(), AllocError>
        requires own { H.is_pass hub.now self.old.pass }
        requires rested { HasRest (H.shape hub.now) P.known self.old }
        ensures own { H.is_pass hub.now self.new.pass }
        ensures rested { HasRest (H.shape hub.now) P.known self.new }
        ensures same { self.new ≡ record self.old { pass = self.new.pass; items = self.new.items } }
        ensures grows { Begins self.old.items.items self.new.items.items }
        ensures read { OnOk result (HasReadFirst self.old (P.known self.old.pass) (P.known self.new.pass) self.new.items.items) }
        ensures read_up { OnOk result (IsToReadFirst self.new → HasReadTold (P.known self.new.pass)) }
        ensures refused { OnErr result (HasLearned (P.known self.old.pass) (P.known self.new.pass)) }
        ensures unshown { OnErr result (self.new.items.items ≡ self.old.items.items) }
    {
        if self.is_to_read_first() {
            return self.read_first(alloc, hub);
        }
        Ok(())
    }

    /// Reads between two lines, outside a block, with the set as it is; a session that is no listener does nothing. The error is that
    /// memory did not suffice; then the mark stays.
    pub fn read_first<H: Hub<Pass = P>>(&mut self, alloc: Global, hub: &H) -> Result<(), AllocError>
        requires own { H.is_pass hub.now self.old.pass }
        requires between { self.old.doing ≡ Doing.Lines }
        requires outside { self.old.block.state ≡ Idle }
        requires rested { HasRest (H.shape hub.now) P.known self.old }
        ensures own { H.is_pass hub.now self.new.pass }
        ensures rested { HasRest (H.shape hub.now) P.known self.new }
        ensures same { self.new ≡ record self.old { pass = self.new.pass; items = self.new.items } }
        ensures finished { OnOk result (FinishesAs P.known self.old self.new) }
        ensures read_up { OnOk result (HasReadTold (P.known self.new.pass)) }
        ensures grows { Begins self.old.items.items self.new.items.items }
        ensures refused { OnErr result (HasLearned (P.known self.old.pass) (P.known self.new.pass)) }
        ensures unshown { OnErr result (self.new.items.items ≡ self.old.items.items) }
    {
        let Some(from) = self.pass.mark() else {
            return Ok(());
        };
        let reading = Reading { hub, alloc, from };
        let _to = read_on(reading, &mut self.pass, &self.set, &mut self.items)?;
        Ok(())
    }

    // The session stands between two lines, no block is open, and the next line listens or opens one.
    fn is_to_read_first(&self) -> bool
        ensures { IsTrue result ↔ IsToReadFirst self.now }
    {
        let Doing::Lines = &self.doing else {
            return false;
        };
        if self.block.state() != BlockState::Idle {
            return false;
        }
        match self.section.lines.as_slice().get(self.done) {
            Some(line) => is_read_before(&line.act),
            None => false,
        }
    }
}

// The line listens or opens a block.
fn is_read_before(act: &Act) -> bool
    ensures { result ≡ reads_first act.now }
{
    match act {
        Act::Run(Command::Listen(_) | Command::Begin | Command::Start) => true,
        _ => false,
    }
}

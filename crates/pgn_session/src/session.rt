ghost use Rattle.std.specs.Prelude.{◌≡◌, ◌≢◌, ◌↔◌, ◌+◌, ◌≤◌, true, [], None, Ok, IfOk, OnOk, OnErr};
ghost use Rattle.pgn_answers.specs.declared.block_state.BlockState.TheVariants.{Idle};
ghost use Rattle.pgn_hub.specs.Shape.{Shape};
ghost use Rattle.pgn_language.specs.Inputs.{QuitsLast, note_lines_of};
ghost use Rattle.pgn_model.specs.Trace.{TraceOk, Fresh};
ghost use Rattle.pgn_hub.specs.Passes.{opened_pass};
ghost use Rattle.pgn_hub.specs.Calls.{HasLearned, HasHeard, HasRaised, HasWoken};
ghost use Rattle.pgn_session.specs.Standing.{terms_of, IsServedBy, end_flag};
ghost use Rattle.pgn_session.specs.Whole.{HasAnswer, HasRest, IdlesAs, FinishesAs};
ghost use Rattle.pgn_session.specs.Parts.{Begins};
ghost use Rattle.pgn_session.specs.Runs.{HasGivenUp};

use crate::reading::{Reading, read_on};
use crate::{Doing, FlagPlan, IdleDone};
use pgn_answers::BlockState;
use pgn_base::{Seed, SessionNo};
use pgn_block::Block;
use pgn_hub::{Hub, PassView};
use pgn_language::Section;
use pgn_listening::ListenSet;
use pgn_model::{Item, Items, Trace};
use std::alloc::{AllocError, Global};

/// Room for so many items is taken at the start, and for so many more a line, as a line takes that notifies and is read. It is not
/// taken for more than so many lines. A list that grows is copied each time, while room without items costs no memory yet.
const FIRST_ITEMS: usize = 16;

const LINE_ITEMS: usize = 4;

const FIRST_LINES: usize = 65_536;

/// A session: its pass, its script, and what it has done so far.
#[derive(Drop)]
pub struct Session<P> {
    /// Its pass of the hub.
    pub pass: P,
    /// Its script.
    pub section: Section,
    pub plan: FlagPlan,
    /// So many looks at a flag may give nothing, made or slept over.
    pub patience: u64,
    /// So many lines of the script have begun.
    pub done: usize,
    pub block: Block,
    pub set: ListenSet,
    /// What happened so far.
    pub items: Vec<Item>,
    pub doing: Doing,
}

impl<P: PassView + Drop> Session<P> {
    /// A session before the first line of its script, with its pass as the hub was opened. Hashes are made with this seed. The error is that memory did not
    /// suffice; the pass and the section are then dropped.
    pub fn new(
        alloc: Global,
        seed: Seed,
        pass: P,
        section: Section,
        plan: FlagPlan,
        patience: u64,
    ) -> Result<Session<P>, AllocError>
        requires opened { P.known pass
            ≡ opened_pass section.no (record { db = section.db; notes = section.note_lines }) }
        requires counted { note_lines_of section.lines ≤ section.note_lines }
        requires quits_last { QuitsLast section.lines }
        requires patient { 1 ≤ patience }
        ensures rested { IfOk result (λ s. (shape : Shape) → HasRest shape P.known s) }
        ensures begins { IfOk result (λ s. (s.pass ≡ pass) × (s.section ≡ section)
            × (s.plan ≡ plan) × (s.patience ≡ patience) × (s.done ≡ 0) × (s.doing ≡ Doing.Lines) × (s.items.items ≡ [])) }
    {
        let Ok(items) = first_room(alloc, section.lines.as_slice().len()) else {
            // Dropped here, by calls, before the return.
            drop(section);
            drop(pass);
            return Err(AllocError);
        };
        Ok(Session {
            pass,
            section,
            plan,
            patience,
            done: 0,
            block: Block::new(alloc, seed),
            set: ListenSet::new(alloc, seed),
            items,
            doing: Doing::Lines,
        })
    }

    /// Reads where it was woken, unless a block is open. A refusal loses no wake: the read is owed then.
    pub fn idle<H: Hub<Pass = P>>(&mut self, alloc: Global, hub: &H) -> Result<IdleDone, AllocError>
        requires own { H.is_pass hub.now self.old.pass }
        requires answered { HasAnswer (H.shape hub.now) P.known self.old }
        ensures own { H.is_pass hub.now self.new.pass }
        ensures rested { OnOk result (HasRest (H.shape hub.now) P.known self.new) }
        ensures refused { OnErr result (HasAnswer (H.shape hub.now) P.known self.new) }
        ensures same { self.new ≡ record self.old { pass = self.new.pass; items = self.new.items } }
        ensures in_block { (result ≡ Ok IdleDone.InBlock) ↔ (self.old.block.state ≢ Idle) }
        ensures no_listener { (result ≡ Ok IdleDone.NotListening)
            ↔ (self.old.block.state ≡ Idle) × ((P.known self.old.pass).mark ≡ None) }
        ensures idled { IfOk result (IdlesAs (H.shape hub.now) P.known self.old self.new) }
        ensures grows { Begins self.old.items.items self.new.items.items }
        ensures owed { OnErr result (HasWoken (H.shape hub.now).format (P.known self.old.pass) (P.known self.new.pass) true) }
        ensures unread { OnErr result ((P.known self.new.pass).mark ≡ (P.known self.old.pass).mark) }
        ensures unshown { OnErr result (self.new.items.items ≡ self.old.items.items) }
    {
        if self.block.state() != BlockState::Idle {
            return Ok(IdleDone::InBlock);
        }
        let Some(from) = self.pass.mark() else {
            return Ok(IdleDone::NotListening);
        };
        if !hub.woken(&mut self.pass) {
            return Ok(IdleDone::Quiet);
        }
        let reading = Reading { hub, alloc, from };
        let to = read_on(reading, &mut self.pass, &self.set, &mut self.items)?;
        Ok(IdleDone::Read { to })
    }

    /// Reads once more, where the session is over and is still a listener. The error is that memory did not suffice; then the
    /// mark stays.
    pub fn finish_read<H: Hub<Pass = P>>(
        &mut self,
        alloc: Global,
        hub: &H,
    ) -> Result<(), AllocError>
        requires own { H.is_pass hub.now self.old.pass }
        requires over { self.old.doing ≡ Doing.Over }
        requires rested { HasRest (H.shape hub.now) P.known self.old }
        ensures own { H.is_pass hub.now self.new.pass }
        ensures rested { HasRest (H.shape hub.now) P.known self.new }
        ensures same { self.new ≡ record self.old { pass = self.new.pass; items = self.new.items } }
        ensures finished { OnOk result (FinishesAs P.known self.old self.new) }
        ensures refused { OnErr result (HasLearned (P.known self.old.pass) (P.known self.new.pass)) }
        ensures unshown { OnErr result (self.new.items.items ≡ self.old.items.items) }
    {
        let Some(from) = self.pass.mark() else {
            return Ok(());
        };
        let reading = Reading { hub, alloc, from };
        let _to = read_on(reading, &mut self.pass, &self.set, &mut self.items)?;
        Ok(())
    }

    /// Lets the other session, which is over, hear what this one knows of the journal and was told.
    pub fn meet<H: Hub<Pass = P>>(&mut self, hub: &H, into: &mut Session<P>)
        requires own { H.is_pass hub.now self.old.pass }
        requires into_own { H.is_pass hub.now into.old.pass }
        requires over { into.old.doing ≡ Doing.Over }
        requires rested { HasRest (H.shape hub.now) P.known into.old }
        ensures own { H.is_pass hub.now self.new.pass }
        ensures into_own { H.is_pass hub.now into.new.pass }
        ensures rested { HasRest (H.shape hub.now) P.known into.new }
        ensures told { HasLearned (P.known self.old.pass) (P.known self.new.pass) }
        ensures heard { HasHeard (P.known self.old.pass) (P.known into.old.pass) (P.known into.new.pass) }
        ensures same { self.new ≡ record self.old { pass = self.new.pass } }
        ensures into_same { into.new ≡ record into.old { pass = into.new.pass } }
    {
        hub.meet(&mut self.pass, &mut into.pass);
    }

    /// Raises the session's end flag after a refusal, so that the others don't wait for it, and calls the run off, so that they don't
    /// wait for other flags either.
    pub fn give_up<H: Hub<Pass = P>>(&mut self, hub: &H)
        requires own { H.is_pass hub.now self.old.pass }
        requires served { IsServedBy (H.shape hub.now) self.old.section self.old.plan }
        ensures own { H.is_pass hub.now self.new.pass }
        ensures raised { HasRaised (P.known self.old.pass) (P.known self.new.pass)
            (end_flag self.old.plan self.old.section.no) (P.known self.old.pass).told }
        ensures gave_up { HasGivenUp P.known self.new }
        ensures same { self.new ≡ record self.old { pass = self.new.pass } }
    {
        raise_end(hub, &mut self.pass, self.section.no, self.plan);
        hub.call_off();
    }

    /// The pass, and the trace. Where the session is over, the trace is lawful and left no read out.
    pub fn into_log(self) -> (P, Trace)
        ensures pass { result.0 ≡ self.pass }
        ensures trace { result.1 ≡ record {
          session = self.section.no;
          db = self.section.db;
          items = self.items.items;
          last = (P.known self.pass).mark;
        } }
        ensures lawful { (shape : Shape) → self.doing ≡ Doing.Over → HasRest shape P.known self
            → TraceOk (terms_of shape self.section self.patience) result.1 (P.known self.pass).seen }
        ensures fresh { (shape : Shape) → self.doing ≡ Doing.Over → HasRest shape P.known self
            → Fresh (terms_of shape self.section self.patience) result.1 (P.known self.pass).seen }
    {
        let Session {
            pass,
            section,
            block,
            set,
            items,
            doing,
            ..
        } = self;
        let trace = Trace {
            session: section.no,
            db: section.db,
            items: Items::from_items(items),
            last: pass.mark(),
        };
        drop(section);
        drop(block);
        drop(set);
        drop(doing);
        (pass, trace)
    }
}

// Room for the items of a script of so many lines.
fn first_room(alloc: Global, lines: usize) -> Result<Vec<Item>, AllocError>
    ensures { IfOk result (λ items. items.items ≡ []) }
{
    Vec::with_capacity(alloc, FIRST_ITEMS + LINE_ITEMS * lines.min(FIRST_LINES))
}

/// Raises the end flag of a session.
pub(crate) fn raise_end<P: PassView + Drop, H: Hub<Pass = P>>(
    hub: &H,
    pass: &mut P,
    session: SessionNo,
    plan: FlagPlan,
)
    requires own { H.is_pass hub.now pass.old }
    requires known { session ≤ plan.sessions }
    requires flags { plan.first_end + plan.sessions ≤ (H.shape hub.now).flags }
    ensures own { H.is_pass hub.now pass.new }
    ensures raised { HasRaised (P.known pass.old) (P.known pass.new)
        (end_flag plan session) (P.known pass.old).told }
{
    let flag = plan.first_end + (session.get() - 1);
    let _told = hub.raise(pass, flag);
}

ghost use Rattle.std.specs.Prelude.{◌≡◌, ◌↔◌, ◌+◌, ◌≤◌, ◌<◌, [], Ok, drop, length, IfOk, OnOk, OnErr, vec_len, vec_capacity};
ghost use Rattle.pgn_language.specs.declared.scenario.Act.TheVariants as act;
ghost use Rattle.pgn_session.specs.declared.doing.Doing.TheVariants as doing;
ghost use Rattle.pgn_session.specs.FirstRead.{IsToReadFirst, HasReadTold};
ghost use Rattle.pgn_session.specs.Standing.{IsServedBy};
ghost use Rattle.pgn_session.specs.Parts.{Begins};
ghost use Rattle.pgn_session.specs.Steps.{HasTurned, HasWaited, StandsStill};
ghost use Rattle.pgn_session.specs.Whole.{HasAnswer, HasRest, RestsAt, ComesWith, IsSameScript, HasStepped, HasRefused, StepsBetween, StaysBetween, Moves, HasDone, WaitsOn, EndsThere};

use crate::command::NextCommand;
use crate::commit::Commit;
use crate::line::{find_ends, put, quit, show_look, signal};
use crate::session::raise_end;
use crate::{Doing, Session, Step};
use pgn_base::Copied;
use pgn_hub::{Hub, PassView};
use pgn_language::Act;
use pgn_listening::ListenSet;
use pgn_model::Item;
use std::alloc::{AllocError, Global};
use std::mem;
use std::sync::Wait;

// What a step does, by where the session stands in its script. Each method is called with the place taken out, and puts the new one in.
impl<P: PassView + Drop> Session<P> {
    /// Takes the next line of the script, or looks once more for an awaited flag, or waits for the others at the end. It is refused
    /// where memory does not suffice, and a further look where the run was called off. All memory is taken before a call on the hub that
    /// changes anything, so that after a refusal the pass and the trace are as they were; a commit that the block has handed out is kept
    /// for the next step.
    /// A session that waits may have to read, as one whose line was answered: it has rested once it was idle.
    pub fn step<H: Hub<Pass = P>, R: Wait>(
        &mut self,
        rt: &R,
        alloc: Global,
        hub: &H,
    ) -> Result<Step, AllocError>
        requires own { H.is_pass hub.now self.old.pass }
        requires served { IsServedBy (H.shape hub.now) self.old.section self.old.plan }
        requires rested { HasRest (H.shape hub.now) P.known self.old }
        requires read_first { IsToReadFirst self.old → HasReadTold (P.known self.old.pass) }
        ensures own { H.is_pass hub.now self.new.pass }
        ensures same { IsSameScript self.old self.new }
        ensures answered { OnOk result (HasAnswer (H.shape hub.now) P.known self.new) }
        ensures rested { result ≡ Ok Step.Ended → HasRest (H.shape hub.now) P.known self.new }
        ensures refused { OnErr result (HasRest (H.shape hub.now) P.known self.new) }
        ensures moved { IfOk result (Moves P.known self.old self.new) }
        ensures did { (result ≡ Ok Step.Did) ↔ HasDone P.known self.old self.new }
        ensures waiting { result ≡ Ok Step.Waiting → WaitsOn P.known self.old self.new }
        ensures ended { (result ≡ Ok Step.Ended) ↔ EndsThere P.known self.old self.new }
        ensures over { result ≡ Ok Step.Ended → self.new.doing ≡ Doing.Over }
        ensures grows { Begins self.old.items.items self.new.items.items }
        ensures pass_kept { OnErr result (self.new.pass ≡ self.old.pass) }
        ensures unshown { OnErr result (self.new.items.items ≡ self.old.items.items) }
        ensures uncounted { OnErr result (self.new.done ≡ self.old.done) }
        ensures set_kept { OnErr result (self.new.set.channels ≡ self.old.set.channels) }
        ensures stands { OnErr result (StandsStill self.old.doing self.new.doing) }
    {
        self.go_on(rt, alloc, hub)
    }

    // Goes on from where the session stands.
    fn go_on<H: Hub<Pass = P>, R: Wait>(
        &mut self,
        rt: &R,
        alloc: Global,
        hub: &H,
    ) -> Result<Step, AllocError>
        requires own { H.is_pass hub.now self.old.pass }
        requires served { IsServedBy (H.shape hub.now) self.old.section self.old.plan }
        requires rested { HasRest (H.shape hub.now) P.known self.old }
        requires read_first { IsToReadFirst self.old → HasReadTold (P.known self.old.pass) }
        ensures own { H.is_pass hub.now self.new.pass }
        ensures stepped { IfOk result (λ step. HasStepped (H.shape hub.now) P.known self.old self.old.doing self.new step) }
        ensures refused { OnErr result (HasRefused (H.shape hub.now) P.known self.old self.old.doing self.new) }
    {
        match mem::replace(&mut self.doing, Doing::Lines) {
            Doing::Lines => self.next_line(rt, alloc, hub),
            Doing::Committing {
                actions,
                notes,
                tag,
            } => {
                let commit = Commit {
                    actions,
                    notes,
                    tag,
                };
                self.commit(rt, hub, commit)
            }
            Doing::Awaiting { flag, looks } => self.look_again(hub, flag, looks),
            Doing::Ending { found, looks } => Ok(self.wait_for_others(hub, found, looks)),
            Doing::Over => {
                self.doing.set(Doing::Over);
                Ok(Step::Ended)
            }
        }
    }

    // Begins the next line, or the script's end.
    fn next_line<H: Hub<Pass = P>, R: Wait>(
        &mut self,
        rt: &R,
        alloc: Global,
        hub: &H,
    ) -> Result<Step, AllocError>
        requires own { H.is_pass hub.now self.old.pass }
        requires served { IsServedBy (H.shape hub.now) self.old.section self.old.plan }
        requires place { self.old.doing ≡ doing.Lines }
        requires rested { HasRest (H.shape hub.now) P.known self.old }
        requires read_first { IsToReadFirst self.old → HasReadTold (P.known self.old.pass) }
        ensures own { H.is_pass hub.now self.new.pass }
        ensures stepped { IfOk result (StepsBetween (H.shape hub.now) P.known self.old self.new) }
        ensures refused { OnErr result (StaysBetween (H.shape hub.now) P.known self.old self.new) }
    {
        if self.done >= self.section.lines.as_slice().len() {
            return Ok(self.begin_end(hub));
        }
        let (line, act) = self.next_act(alloc)?;
        match act {
            Act::Run(command) => self.run(rt, alloc, hub, NextCommand { line, command }),
            Act::Signal(flag) => self.signal(hub, line, flag),
            Act::Await(flag) => self.await_flag(hub, line, flag),
            Act::Quit => self.quit(alloc, hub, line),
        }
    }

    // The number of the next line, and what it does, copied.
    fn next_act(&self, alloc: Global) -> Result<(u32, Act), AllocError>
        requires more { self.now.done < length self.now.section.lines }
        ensures comes { IfOk result (λ next. ComesWith self.now next.0 next.1) }
        ensures counted { self.now.done < usize.MAX }
    {
        let next = &self.section.lines.as_slice()[self.done];
        let act = next.act.copy(alloc)?;
        Ok((next.line, act))
    }

    // Raises a flag.
    fn signal<H: Hub<Pass = P>>(
        &mut self,
        hub: &H,
        line: u32,
        flag: u32,
    ) -> Result<Step, AllocError>
        requires own { H.is_pass hub.now self.old.pass }
        requires flag { flag < (H.shape hub.now).flags }
        requires place { self.old.doing ≡ doing.Lines }
        requires rested { HasRest (H.shape hub.now) P.known self.old }
        requires comes { ComesWith self.old line (act.Signal flag) }
        requires counted { self.old.done < usize.MAX }
        ensures own { H.is_pass hub.now self.new.pass }
        ensures stepped { IfOk result (StepsBetween (H.shape hub.now) P.known self.old self.new) }
        ensures refused { OnErr result (StaysBetween (H.shape hub.now) P.known self.old self.new) }
    {
        self.items.reserve(2)?;
        signal(hub, &mut self.pass, &mut self.items, line, flag);
        self.done += 1;
        Ok(Step::Did)
    }

    // Awaits a flag: the first look.
    fn await_flag<H: Hub<Pass = P>>(
        &mut self,
        hub: &H,
        line: u32,
        flag: u32,
    ) -> Result<Step, AllocError>
        requires own { H.is_pass hub.now self.old.pass }
        requires flag { flag < (H.shape hub.now).flags }
        requires place { self.old.doing ≡ doing.Lines }
        requires rested { HasRest (H.shape hub.now) P.known self.old }
        requires comes { ComesWith self.old line (act.Await flag) }
        requires counted { self.old.done < usize.MAX }
        ensures own { H.is_pass hub.now self.new.pass }
        ensures stepped { IfOk result (StepsBetween (H.shape hub.now) P.known self.old self.new) }
        ensures refused { OnErr result (StaysBetween (H.shape hub.now) P.known self.old self.new) }
    {
        self.items.reserve(2)?;
        put(&mut self.items, Item::Line { line });
        self.done += 1;
        Ok(self.look_for(hub, flag, 1))
    }

    // Looks once more for the flag that the line awaits. Where the run was called off it is refused, since a session that was refused
    // memory raises no flag but its own end flag.
    fn look_again<H: Hub<Pass = P>>(
        &mut self,
        hub: &H,
        flag: u32,
        looks: u64,
    ) -> Result<Step, AllocError>
        requires own { H.is_pass hub.now self.old.pass }
        requires flag { flag < (H.shape hub.now).flags }
        requires place { self.old.doing ≡ doing.Lines }
        requires rested { RestsAt (H.shape hub.now) P.known self.old (doing.Awaiting flag looks) }
        requires few { looks < self.old.patience }
        ensures own { H.is_pass hub.now self.new.pass }
        ensures stepped { IfOk result (λ step. HasStepped (H.shape hub.now) P.known self.old (doing.Awaiting flag looks) self.new step) }
        ensures refused { OnErr result (HasRefused (H.shape hub.now) P.known self.old (doing.Awaiting flag looks) self.new) }
    {
        if self.items.reserve(1).is_err() || hub.is_called_off() {
            self.doing.set(Doing::Awaiting { flag, looks });
            return Err(AllocError);
        }
        Ok(self.look_for(hub, flag, looks + 1))
    }

    // One look, which is the line's look of this number.
    fn look_for<H: Hub<Pass = P>>(&mut self, hub: &H, flag: u32, looks: u64) -> Step
        requires own { H.is_pass hub.now self.old.pass }
        requires flag { flag < (H.shape hub.now).flags }
        requires place { self.old.doing ≡ doing.Lines }
        requires room { vec_len self.old.items + 1 ≤ vec_capacity self.old.items }
        ensures own { H.is_pass hub.now self.new.pass }
        ensures same { self.new
            ≡ record self.old { pass = self.new.pass; items = self.new.items; doing = self.new.doing } }
        ensures turned { HasTurned flag looks self.old.patience
            (P.known self.old.pass) (P.known self.new.pass) self.old.items.items self.new.items.items self.new.doing result }
    {
        let found = hub.look(&mut self.pass, flag);
        show_look(&mut self.items, &found, looks, self.patience);
        if found.is_none() && looks < self.patience {
            self.doing.set(Doing::Awaiting { flag, looks });
            return Step::Waiting;
        }
        Step::Did
    }

    // Quits: what is open is dropped, a listener leaves, and the end flag is raised.
    fn quit<H: Hub<Pass = P>>(
        &mut self,
        alloc: Global,
        hub: &H,
        line: u32,
    ) -> Result<Step, AllocError>
        requires own { H.is_pass hub.now self.old.pass }
        requires served { IsServedBy (H.shape hub.now) self.old.section self.old.plan }
        requires place { self.old.doing ≡ doing.Lines }
        requires rested { HasRest (H.shape hub.now) P.known self.old }
        requires comes { ComesWith self.old line act.Quit }
        requires counted { self.old.done < usize.MAX }
        ensures own { H.is_pass hub.now self.new.pass }
        ensures stepped { IfOk result (StepsBetween (H.shape hub.now) P.known self.old self.new) }
        ensures refused { OnErr result (StaysBetween (H.shape hub.now) P.known self.old self.new) }
    {
        self.items.reserve(2)?;
        quit(hub, &mut self.pass, &mut self.items, line);
        raise_end(hub, &mut self.pass, self.section.no, self.plan);
        self.block.drop_block();
        let seed = self.set.seed();
        drop(mem::replace(&mut self.set, ListenSet::new(alloc, seed)));
        self.done += 1;
        self.doing.set(Doing::Over);
        Ok(Step::Did)
    }

    // The script is done: what is open is dropped, and the end flag is raised.
    fn begin_end<H: Hub<Pass = P>>(&mut self, hub: &H) -> Step
        requires own { H.is_pass hub.now self.old.pass }
        requires served { IsServedBy (H.shape hub.now) self.old.section self.old.plan }
        requires place { self.old.doing ≡ doing.Lines }
        requires rested { HasRest (H.shape hub.now) P.known self.old }
        requires no_line { drop self.old.done self.old.section.lines ≡ [] }
        ensures own { H.is_pass hub.now self.new.pass }
        ensures stepped { StepsBetween (H.shape hub.now) P.known self.old self.new result }
    {
        self.block.drop_block();
        raise_end(hub, &mut self.pass, self.section.no, self.plan);
        self.doing.set(Doing::Ending { found: 0, looks: 0 });
        Step::Did
    }

    // Waits for the others: one turn.
    fn wait_for_others<H: Hub<Pass = P>>(&mut self, hub: &H, found: u32, looks: u64) -> Step
        requires own { H.is_pass hub.now self.old.pass }
        requires served { IsServedBy (H.shape hub.now) self.old.section self.old.plan }
        requires rested { RestsAt (H.shape hub.now) P.known self.old (doing.Ending found looks) }
        requires few { looks < self.old.patience }
        requires within { found ≤ self.old.plan.sessions }
        ensures own { H.is_pass hub.now self.new.pass }
        ensures stepped { HasStepped (H.shape hub.now) P.known self.old (doing.Ending found looks) self.new result }
    {
        self.look_on(hub, found, looks)
    }

    // Looks at the end flags that were not found yet, in order, until a look gives nothing.
    fn look_on<H: Hub<Pass = P>>(&mut self, hub: &H, found: u32, looks: u64) -> Step
        requires own { H.is_pass hub.now self.old.pass }
        requires served { IsServedBy (H.shape hub.now) self.old.section self.old.plan }
        requires few { looks < self.old.patience }
        requires within { found ≤ self.old.plan.sessions }
        ensures own { H.is_pass hub.now self.new.pass }
        ensures same { self.new ≡ record self.old { pass = self.new.pass; doing = self.new.doing } }
        ensures waited { HasWaited self.old.plan found looks self.old.patience
            (P.known self.old.pass) (P.known self.new.pass) self.new.doing result }
    {
        let patience = self.patience;
        let reached = find_ends(hub, &mut self.pass, self.plan, found);
        if reached < self.plan.sessions && looks + 1 < patience {
            self.doing.set(Doing::Ending {
                found: reached,
                looks: looks + 1,
            });
            return Step::Waiting;
        }
        self.doing.set(Doing::Over);
        Step::Ended
    }
}

ghost use Rattle.std.specs.Prelude.{◌≡◌, ℕ, ◌+◌, ◌^◌, ◌<◌, ◌≤◌, [], List, flat_map, length, Ok, None, IfOk};
ghost use Rattle.pgn_language.specs.declared.scenario.Section.{Section};
ghost use Rattle.pgn_model.specs.declared.trace.Trace.{Trace};
ghost use Rattle.pgn_model.specs.Legal.{finished_xids};
ghost use Rattle.pgn_model.specs.Text.{item_lines, trace_lines};
ghost use Rattle.pgn_check.specs.Walked.{CountsOn, HasCome, IsAtEnd, IsFirstIn, IsFirstOf, IsFirstOrPast};

use crate::fresh::is_fresh_at;
use crate::judge::takes;
use crate::last::{is_fresh_last, is_whole};
use pgn_model::{Item, Trace};
use pgn_walk::{Basis, Standing, finished_in, lines_of};
use std::alloc::{AllocError, Global};

/// How far a walk has come: where its session stands, how many transactions the items so far show as finished, and the number of the
/// last line.
#[derive(Drop)]
pub(crate) struct Walker<'a> {
    at: Standing<'a>,
    own: usize,
    line: usize,
}

/// The number of the first line of a section that is to blame, if one is, where the section's head is the line of this number.
pub fn walk(
    alloc: Global,
    basis: &Basis,
    trace: &Trace,
    head: usize,
) -> Result<Option<usize>, AllocError>
    requires fits { head + length (trace_lines basis.now.section.now trace.now) < 2 ^ 64 }
    ensures { IfOk result (IsFirstOf basis.now head trace.now) }
{
    let mut walker = Walker::new(alloc, basis, head);
    let blamed = walker.go(alloc, basis, trace);
    // By a call, behind the last way out.
    drop(walker);
    blamed
}

impl<'a> Walker<'a> {
    // Before the first item, where the head is the line of this number.
    #[tactic(auto, using(crate::proofs::WalkLaws::come_first))]
    fn new(alloc: Global, basis: &Basis<'a>, head: usize) -> Walker<'a>
        ensures counted { (result.own ≡ 0) × (result.line ≡ head) }
        ensures come { (sections : List Section) (traces : List Trace)
            → HasCome basis.now sections traces [] result.at }
    {
        Walker {
            at: Standing::new(alloc, &basis.ledger.feed, basis.section.db),
            own: 0,
            line: head,
        }
    }

    // Goes along a whole trace, to the line that is to blame, if one is.
    fn go(
        &mut self,
        alloc: Global,
        basis: &Basis,
        trace: &Trace,
    ) -> Result<Option<usize>, AllocError>
        requires fits { self.old.line
            + length (trace_lines basis.now.section.now trace.now) < 2 ^ 64 }
        requires own { self.old.own ≡ 0 }
        requires come { (sections : List Section) (traces : List Trace)
            → HasCome basis.now sections traces [] self.old.at }
        ensures { IfOk result (IsFirstOf basis.now self.old.line trace.now) }
    {
        for item in trace.items.as_slice() {
            match self.step(alloc, basis, item)? {
                Some(line) => return Ok(Some(line)),
                None => {}
            }
        }
        Ok(self.end(basis, trace))
    }

    // Takes an item, or gives the line that is to blame.
    #[tactic(auto, using(crate::proofs::WalkLaws::step_left, crate::proofs::WalkLaws::step_bad, crate::proofs::WalkLaws::step_on))]
    fn step(
        &mut self,
        alloc: Global,
        basis: &Basis,
        item: &Item,
    ) -> Result<Option<usize>, AllocError>
        requires line { self.old.line + length (item_lines [] item.now) < 2 ^ 64 }
        requires next { self.old.line + 1 < 2 ^ 64 }
        requires own { self.old.own ≤ self.old.line }
        ensures counted { result ≡ Ok None → CountsOn self.old item.now self.new }
        ensures come { IfOk result (IsFirstOrPast basis.now self.old item.now self.new.at) }
    {
        self.at.ready();
        if !is_fresh_at(&self.at, basis, item) {
            return Ok(Some(self.line));
        }
        if !takes(&mut self.at, alloc, basis, self.own, item)? {
            return Ok(Some(self.line + 1));
        }
        self.own += finished_in(item);
        self.line += lines_of(item);
        Ok(None)
    }

    // The line that is to blame at the end, if one is.
    #[tactic(auto, using(crate::proofs::WalkLaws::end_left, crate::proofs::WalkLaws::end_bad, crate::proofs::WalkLaws::end_good))]
    fn end(&self, basis: &Basis, trace: &Trace) -> Option<usize>
        requires next { self.now.line + 1 < 2 ^ 64 }
        requires own { self.now.own ≡ length (finished_xids trace.now.items) }
        ensures { (sections : List Section) (traces : List Trace) (head : ℕ)
            → IsAtEnd basis.now sections traces head trace.now self.now
            → IsFirstIn basis.now sections traces head trace.now result }
    {
        if !is_fresh_last(&self.at, basis) {
            return Some(self.line);
        }
        if !is_whole(&self.at, basis, self.own, &trace.last) {
            return Some(self.line + 1);
        }
        None
    }
}

/// How many lines a section with its trace has.
pub fn lines_of_trace(trace: &Trace) -> usize
    requires { 2 + length (flat_map (item_lines []) trace.now.items) < 2 ^ 64 }
    ensures { (section : Section) → result ≡ length (trace_lines section trace.now) }
{
    let mut lines = 2;
    for item in trace.items.as_slice() {
        lines += lines_of(item);
    }
    lines
}

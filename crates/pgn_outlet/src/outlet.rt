ghost use Rattle.std.specs.Prelude.{◌≡◌, ◌+◌, ◌≤◌, true, [], IfOk, OnOk, OnErr, IfSome, IfNone};
ghost use Rattle.pgn_outlet.specs.Rule.{MayPush, lower, upper, joined, taken_over, with_sent, with_got, sender, taker};
ghost use Rattle.pgn_outlet.specs.Passes.{IsPassOf, knows, HasAll};

use crate::plays::{Both, Cut, Got, InOrder, Roles, Sent, Size};
use crate::{Came, Hand};
use crossbeam_queue::{RuledSegQueue, SegPass};
use std::alloc::{AllocError, Global};
use std::marker::Brand;
use std::sync::Wait;

/// A queue of what is pushed for sessions, from those who push to one who takes. It is ended by `destroy`.
pub struct Outlet<T> {
    queue: RuledSegQueue<Came<T>, Hand<T>, InOrder>,
}

/// A right to step on the queue, and what was done there by it. It has no bytes.
pub type OutletPass<T> = SegPass<Came<T>, Hand<T>>;

impl<T: Drop> Outlet<T> {
    /// An empty queue, a pass that may push for every session, and one that takes. The error is that memory did not suffice.
    pub fn open(alloc: Global) -> Result<(Outlet<T>, OutletPass<T>, OutletPass<T>), AllocError>
        ensures own { IfOk result (λ opened. IsPassOf opened.0 opened.1
            × IsPassOf opened.0 opened.2) }
        ensures pushes { IfOk result (λ opened. knows opened.1 ≡ sender) }
        ensures takes { IfOk result (λ opened. knows opened.2 ≡ taker) }
    {
        let (queue, mut pass) = RuledSegQueue::with_rule(alloc)?;
        let other = queue.another::<Roles>(&mut pass);
        Ok((Outlet { queue }, pass, other))
    }

    /// Cuts a pass that has pushed nothing yet: it keeps the first of its sessions by their numbers, so many, and the answer has the
    /// others.
    pub fn cut(&self, pass: &mut OutletPass<T>, size: u64) -> OutletPass<T>
        requires own { IsPassOf self.now pass.old }
        requires unused { (knows pass.old).sent ≡ [] }
        requires fits { size ≤ (knows pass.old).count }
        ensures own { IsPassOf self.now pass.new × IsPassOf self.now result }
        ensures lower { knows pass.new ≡ lower size (knows pass.old) }
        ensures upper { knows result ≡ upper size (knows pass.old) }
    {
        self.cut_as::<Brand>(pass, size)
    }

    // The same, where the proof is told of the size. The step itself needs none.
    fn cut_as<N: Size>(&self, pass: &mut OutletPass<T>, size: u64) -> OutletPass<T>
        requires given { N.size ≡ size }
        requires own { IsPassOf self.now pass.old }
        requires unused { (knows pass.old).sent ≡ [] }
        requires fits { size ≤ (knows pass.old).count }
        ensures own { IsPassOf self.now pass.new × IsPassOf self.now result }
        ensures lower { knows pass.new ≡ lower size (knows pass.old) }
        ensures upper { knows result ≡ upper size (knows pass.old) }
    {
        let _size = size;
        self.queue.another::<Cut<N>>(pass)
    }

    /// Makes one pass of two whose sessions are neighbours by their numbers.
    pub fn whole(&self, pass: &mut OutletPass<T>, other: OutletPass<T>)
        requires own { IsPassOf self.now pass.old × IsPassOf self.now other }
        requires neighbours { (knows other).first
            ≡ (knows pass.old).first + (knows pass.old).count }
        ensures own { IsPassOf self.now pass.new }
        ensures joined { knows pass.new ≡ joined (knows pass.old) (knows other) }
    {
        self.queue.absorb::<Both>(pass, other);
    }

    /// Gives a pass the part of the one that takes.
    pub fn close(&self, pass: &mut OutletPass<T>, other: OutletPass<T>)
        requires own { IsPassOf self.now pass.old × IsPassOf self.now other }
        requires takes { (knows other).takes ≡ true }
        ensures own { IsPassOf self.now pass.new }
        ensures taken_over { knows pass.new ≡ taken_over (knows pass.old) (knows other) }
    {
        self.queue.absorb::<Roles>(pass, other);
    }

    /// Puts something for a session behind what was put before. The error is that memory did not suffice; nothing was put then.
    pub fn push<R: Wait>(
        &self,
        rt: &R,
        pass: &mut OutletPass<T>,
        came: Came<T>,
    ) -> Result<(), AllocError>
        requires own { IsPassOf self.now pass.old }
        requires may { MayPush (knows pass.old) came.session }
        ensures own { IsPassOf self.now pass.new }
        ensures pushed { OnOk result (knows pass.new ≡ with_sent (knows pass.old) came) }
        ensures refused { OnErr result (knows pass.new ≡ knows pass.old) }
    {
        match self.queue.push_as::<Sent, R>(rt, pass, came) {
            Ok(()) => Ok(()),
            Err(_) => Err(AllocError),
        }
    }

    /// Takes the foremost of what was put and not taken. Where there is nothing, the pass has taken all that it may have pushed itself.
    pub fn take<R: Wait>(&self, rt: &R, pass: &mut OutletPass<T>) -> Option<Came<T>>
        requires own { IsPassOf self.now pass.old }
        requires takes { (knows pass.old).takes ≡ true }
        ensures own { IsPassOf self.now pass.new }
        ensures took { IfSome result (λ came. knows pass.new ≡ with_got (knows pass.old) came) }
        ensures found_none { IfNone result (knows pass.new ≡ knows pass.old) }
        ensures has_all { IfNone result (HasAll (knows pass.new)) }
    {
        self.queue.pop_as::<Got, R>(rt, pass)
    }

    /// Drops what was not taken, and gives the memory back.
    pub fn destroy(self) {
        let Outlet { queue } = self;
        queue.destroy();
    }
}

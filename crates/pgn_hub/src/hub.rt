ghost use Rattle.std.specs.Prelude.{◌≡◌, ◌≢◌, ◌<◌, ◌≤◌, [], map, length, All, AllPairs, IfOk, OnErr, IfErr, IsSome};
ghost use Rattle.std.specs.List.{range_with_len};
ghost use Rattle.pgn_hub.specs.Shape.{Shape, IsShape};
ghost use Rattle.pgn_hub.specs.Passes.{IsSeated, IsWithin, opened_passes};
ghost use Rattle.pgn_hub.specs.Calls.{HasPublished, HasEnlisted, HasHeard, HasInterest, HasLearned, HasLeft, HasLooked, HasMetFull, HasRaised, HasRead, HasMeasured, HasWoken};
ghost use Rattle.pgn_hub.specs.Gathered.{Gathered};

use crate::{PassView, Roll, Setup};
use pgn_base::{Delivery, Enlisted, Full, Note, Usage, Xid};
use pgn_listening::ListenSet;
use std::alloc::{AllocError, Global};
use std::sync::Wait;
use std::time::Duration;

/// The notification service, as its sessions see it.
pub trait Hub: Sized {
    type Pass: PassView + Drop;

    /// What the hub was opened for. It never changes.
    ghost shape: { Self → Shape };

    /// The pass is one of this hub's.
    ghost is_pass: { Self → Self.Pass → Type 0 };

    /// An empty journal, and a pass for each seat, in order. The error is that memory did not suffice.
    fn open(alloc: Global, setup: Setup) -> Result<(Self, Vec<Self::Pass>), AllocError>
        ensures shape { IfOk result (λ opened. shape opened.0 ≡ setup) }
        ensures passes { IfOk result (λ opened. map Self.Pass.known opened.1.items
            ≡ opened_passes 1 setup.seats) }
        ensures own { IfOk result (λ opened. All (is_pass opened.0) opened.1.items) };

    /// Publishes a transaction with these notifications, which have no repeats: answers its number. Where the queue has no page left
    /// for them the transaction is aborted, and the answer says why.
    fn publish<R: Wait>(&self, rt: &R, pass: &mut Self::Pass, notes: &[Note]) -> Result<Xid, Full>
        requires own { is_pass self.now pass.old }
        requires some { notes.now ≢ [] }
        requires different { AllPairs (λ a b. a ≢ b) notes.now }
        requires few { length notes.now ≤ (Self.Pass.known pass.old).notes_left }
        ensures own { is_pass self.now pass.new }
        ensures committed { IfOk result (λ x. HasPublished (Self.Pass.known pass.old)
            (Self.Pass.known pass.new) notes.now x) }
        ensures full { IfErr result (λ full. HasMetFull (shape self.now) (Self.Pass.known pass.old)
            (Self.Pass.known pass.new) notes.now full) };

    /// Makes the session, which is no listener, one: it receives from the point on, once it has told its channels.
    fn enlist(&self, pass: &mut Self::Pass) -> Enlisted
        requires own { is_pass self.now pass.old }
        requires out { (Self.Pass.known pass.old).mark ≡ None }
        ensures own { is_pass self.now pass.new }
        ensures enlisted { HasEnlisted (Self.Pass.known pass.old) (Self.Pass.known pass.new) result };

    /// Tells the channels that the listener listens to: it is then woken for these alone, and owes a read. It takes no memory.
    fn interest(&self, pass: &mut Self::Pass, set: &ListenSet)
        requires own { is_pass self.now pass.old }
        requires listens { IsSome (Self.Pass.known pass.old).mark }
        ensures own { is_pass self.now pass.new }
        ensures interested { HasInterest (Self.Pass.known pass.old) (Self.Pass.known pass.new)
            set.now.channels };

    /// Reads from the mark to the first unfinished transaction, which it answers as the new mark, and puts what is due on the
    /// channels of the set, which is the one that the listener has told, behind `out`. The error is that memory did not suffice; then `out`
    /// and the mark stay, and a read that was owed is still owed.
    fn scan(
        &self,
        alloc: Global,
        pass: &mut Self::Pass,
        set: &ListenSet,
        out: &mut Vec<Delivery>,
    ) -> Result<Xid, AllocError>
        requires own { is_pass self.now pass.old }
        requires listens { IsSome (Self.Pass.known pass.old).mark }
        requires interested { (Self.Pass.known pass.old).set ≡ set.now.channels }
        ensures own { is_pass self.now pass.new }
        ensures read { IfOk result (λ to. HasRead (Self.Pass.known pass.old)
            (Self.Pass.known pass.new) set.now.channels to out.old.items out.new.items) }
        ensures refused { OnErr result (HasLearned (Self.Pass.known pass.old)
            (Self.Pass.known pass.new)) }
        ensures refused_reads_nothing { OnErr result (out.new.items ≡ out.old.items) };

    /// Makes a listener none.
    fn leave(&self, pass: &mut Self::Pass)
        requires own { is_pass self.now pass.old }
        requires listens { IsSome (Self.Pass.known pass.old).mark }
        ensures own { is_pass self.now pass.new }
        ensures left { HasLeft (Self.Pass.known pass.old) (Self.Pass.known pass.new) };

    /// Whether a listener is to read: its wake was set, which is taken by this, or a read is owed.
    fn woken(&self, pass: &mut Self::Pass) -> bool
        requires own { is_pass self.now pass.old }
        requires listens { IsSome (Self.Pass.known pass.old).mark }
        ensures own { is_pass self.now pass.new }
        ensures woken { HasWoken (shape self.now).format (Self.Pass.known pass.old)
            (Self.Pass.known pass.new) result };

    /// Raises a flag with the number that the pass was told, and answers it. The flag keeps the greatest number.
    fn raise(&self, pass: &mut Self::Pass, flag: u32) -> Xid
        requires own { is_pass self.now pass.old }
        requires flag { flag < (shape self.now).flags }
        ensures own { is_pass self.now pass.new }
        ensures raised { HasRaised (Self.Pass.known pass.old) (Self.Pass.known pass.new) flag result };

    /// Looks once at a flag: its number, if it was raised.
    fn look(&self, pass: &mut Self::Pass, flag: u32) -> Option<Xid>
        requires own { is_pass self.now pass.old }
        requires flag { flag < (shape self.now).flags }
        ensures own { is_pass self.now pass.new }
        ensures looked { HasLooked (Self.Pass.known pass.old) (Self.Pass.known pass.new) flag result };

    /// Sleeps until the flag is raised, for so long at most; at once it returns where the flag was raised before. It needs no pass and
    /// does nothing to any. No clause sees that the thread sleeps, or how long: nothing that is proved says that time passes.
    fn rest<R: Wait>(&self, rt: &R, flag: u32, time: Duration)
        requires flag { flag < (shape self.now).flags };

    /// The session of this seat is about to doze: what sets its wake, raises a flag or calls the run off from now on rings its bell. Look
    /// once more at everything before you doze. No clause sees that a bell rings.
    fn arm(&self, seat: u32)
        requires seat { seat < length (shape self.now).seats };

    /// Rings the bell of a seat: who dozes there wakes, and who has armed it does not begin to doze. Where nobody armed it, it is a load.
    fn ring(&self, seat: u32)
        requires seat { seat < length (shape self.now).seats };

    /// Sleeps until the bell of the session's own seat rings, for so long at most (`Duration::MAX`: until it rings); at once it returns
    /// where the bell has rung since it was armed, or was not armed. It may return for no reason. No clause sees that the thread sleeps,
    /// or how long.
    fn doze<R: Wait>(&self, rt: &R, seat: u32, time: Duration)
        requires seat { seat < length (shape self.now).seats };

    /// Calls the run off: a session was refused memory, and others need not wait for what it would have done. It needs no pass and
    /// does nothing to any.
    fn call_off(&self);

    /// Whether the run was called off. No clause says that a call is heard of, or when.
    fn is_called_off(&self) -> bool;

    /// How many pages are in use, after the tail was advanced.
    fn usage<R: Wait>(&self, rt: &R, pass: &mut Self::Pass) -> Usage
        requires own { is_pass self.now pass.old }
        ensures own { is_pass self.now pass.new }
        ensures used { HasMeasured (shape self.now) (Self.Pass.known pass.old)
            (Self.Pass.known pass.new) result };

    /// Lets one pass hear what another one knows of the journal, and what it was told.
    fn meet(&self, from: &mut Self::Pass, into: &mut Self::Pass)
        requires from { is_pass self.now from.old }
        requires into { is_pass self.now into.old }
        ensures own_from { is_pass self.now from.new }
        ensures own_into { is_pass self.now into.new }
        ensures told { HasLearned (Self.Pass.known from.old) (Self.Pass.known from.new) }
        ensures heard { HasHeard (Self.Pass.known from.old) (Self.Pass.known into.old)
            (Self.Pass.known into.new) };

    /// Ends the hub with all of its passes, in order.
    fn gather(self, passes: Vec<Self::Pass>) -> Roll
        requires own { All (is_pass self) passes.items }
        requires all { map (λ pass. (Self.Pass.known pass).session) passes.items
            ≡ range_with_len 1 (length (shape self).seats) }
        ensures { Gathered (map Self.Pass.known passes.items) result.count };

    /// What it was opened for is within its limits.
    ghost shaped: { (hub : Self) → IsShape (shape hub) };

    /// What holds of each pass between calls.
    ghost within: { (hub : Self) (pass : Self.Pass) → is_pass hub pass → IsWithin (Self.Pass.known pass) };

    /// Each pass is that of a seat.
    ghost seated: { (hub : Self) (pass : Self.Pass) → is_pass hub pass → IsSeated (shape hub) (Self.Pass.known pass) };
}

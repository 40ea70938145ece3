ghost use Rattle.std.specs.Prelude.{◌≡◌, map, length, All, IfOk};
ghost use Rattle.std.specs.List.{range_with_len};
ghost use Rattle.pgn_hub.specs.Gathered.{Gathered};
ghost use Rattle.pgn_words.specs.Passes.{known_of};
ghost use Rattle.pgn_wordhub.specs.Passes.{IsHubPass, hub_shape};

use crate::WordHub;
use crate::bells::Bells;
use pgn_base::{Delivery, Enlisted, Full, Note, Usage, Xid, are_notes};
use pgn_hub::{Hub, Roll, SeatSetup, Setup};
use pgn_journal::interest_of_notes;
use pgn_listening::ListenSet;
use pgn_words::{WordPass, WordQueue};
use std::alloc::{AllocError, Global};
use std::sync::Wait;
use std::sync::atomic::{AtomicBool, Ordering};
use std::time::Duration;

// The databases of seats.
fn databases(alloc: Global, seats: &[SeatSetup]) -> Result<Vec<u32>, AllocError>
    ensures { IfOk result (λ dbs. dbs.items ≡ map (λ seat. seat.db) seats.now) }
{
    let mut dbs = Vec::with_capacity(alloc, seats.len())?;
    for seat in seats {
        dbs.push(seat.db.get())?;
    }
    Ok(dbs)
}

impl Hub for WordHub {
    type Pass = WordPass;

    ghost shape = { hub_shape };

    ghost is_pass = { IsHubPass };

    ghost shaped = { λ hub. hub.shaped };

    ghost within = { λ hub pass h. h.view.within };

    ghost seated = { λ hub pass h. h.view.seated };

    fn open(alloc: Global, setup: Setup) -> Result<(Self, Vec<WordPass>), AllocError> {
        let dbs = databases(alloc, setup.seats())?;
        let bells = Bells::open(alloc, setup.seats().len())?;
        let pages = setup.pages();
        let format = setup.format();
        let (queue, passes) = WordQueue::open(alloc, &setup)?;
        let hub = WordHub {
            queue,
            pages,
            format,
            dbs,
            bells,
            called_off: AtomicBool::new(false),
        };
        Ok((hub, passes))
    }

    fn publish<R: Wait>(&self, rt: &R, pass: &mut WordPass, notes: &[Note]) -> Result<Xid, Full> {
        are_notes(notes);
        let sent = interest_of_notes(notes);
        self.lock(rt, pass);
        let published = self.publish_locked(rt, pass, notes, sent);
        self.queue.drop_lock(pass);
        published
    }

    fn enlist(&self, pass: &mut WordPass) -> Enlisted {
        self.join(pass)
    }

    fn interest(&self, pass: &mut WordPass, set: &ListenSet) {
        self.queue.store_interest(pass, set);
    }

    fn scan(
        &self,
        alloc: Global,
        pass: &mut WordPass,
        set: &ListenSet,
        out: &mut Vec<Delivery>,
    ) -> Result<Xid, AllocError> {
        self.read(alloc, pass, set, out)
    }

    fn leave(&self, pass: &mut WordPass) {
        self.queue.store_out(pass);
    }

    fn woken(&self, pass: &mut WordPass) -> bool {
        let _was_set = self.queue.take_wake(pass);
        pass.owes()
    }

    fn raise(&self, pass: &mut WordPass, flag: u32) -> Xid {
        let told = self.queue.raise_flag(pass, flag);
        self.bells.ring_all();
        told
    }

    fn look(&self, pass: &mut WordPass, flag: u32) -> Option<Xid> {
        self.queue.look_flag(pass, flag)
    }

    fn rest<R: Wait>(&self, rt: &R, flag: u32, time: Duration) {
        self.queue.sleep_on_flag(rt, flag, time);
    }

    fn arm(&self, seat: u32) {
        self.bells.arm(seat);
    }

    fn ring(&self, seat: u32) {
        self.bells.ring(seat);
    }

    fn doze<R: Wait>(&self, rt: &R, seat: u32, time: Duration) {
        self.bells.doze(rt, seat, time);
    }

    fn call_off(&self) {
        self.called_off.store(true, Ordering::SeqCst);
        self.bells.ring_all();
    }

    fn is_called_off(&self) -> bool {
        self.called_off.load(Ordering::SeqCst)
    }

    fn usage<R: Wait>(&self, rt: &R, pass: &mut WordPass) -> Usage {
        self.lock(rt, pass);
        let usage = self.measure(rt, pass);
        self.queue.drop_lock(pass);
        usage
    }

    fn meet(&self, from: &mut WordPass, into: &mut WordPass) {
        let note = self.queue.split(from);
        self.queue.join(into, note);
        self.queue.load_fin(into);
    }

    fn gather(self, passes: Vec<WordPass>) -> Roll
        requires own { All (IsHubPass self) passes.items }
        requires all { map (λ pass. (known_of pass).session) passes.items
            ≡ range_with_len 1 (length (hub_shape self).seats) }
        ensures { Gathered (map known_of passes.items) result.count }
    {
        let WordHub { queue, .. } = self;
        queue.close(passes)
    }
}

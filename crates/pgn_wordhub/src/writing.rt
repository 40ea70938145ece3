ghost use Rattle.std.specs.Prelude.{◌≡◌, ◌≢◌, ◌+◌, ◌++◌, ◌^◌, ◌<◌, ◌≤◌, true, [], ◌∷◌, length, All, AllPairs, IfOk, IfErr};
ghost use Rattle.pgn_base.specs.Notes.{IsNote};
ghost use Rattle.pgn_journal.specs.Journal.{next_xid};
ghost use Rattle.pgn_base.specs.Interest.{interest};
ghost use Rattle.pgn_journal.specs.Interest.{channels_of};
ghost use Rattle.pgn_journal.specs.Packing.{page_of, image};
ghost use Rattle.pgn_hub.specs.Shape.{notes_of_seats};
ghost use Rattle.pgn_journal.specs.declared.tx.Fate.TheVariants as fates;
ghost use Rattle.pgn_hub.specs.Calls.{HasPublished, HasMetFull, HasMeasured};
ghost use Rattle.pgn_words.specs.Passes.{IsPassOf, view_of, known_of};
ghost use Rattle.pgn_words.specs.Positions.{listens_at};
ghost use Rattle.pgn_words.specs.Views.{may_look, AreDecided};
ghost use Rattle.pgn_words.specs.Told.{MayEnd, head_known, stop_known, freed};
ghost use Rattle.pgn_words.specs.declared.view.Phase.TheVariants as phases;
ghost use Rattle.pgn_wordhub.specs.Passes.{hub_shape};
ghost use Rattle.pgn_wordhub.specs.Advancing.{advanced_view, HasTried};
ghost use Rattle.pgn_wordhub.specs.Placing.{begun_view, IsPlacing};
ghost use Rattle.pgn_wordhub.specs.Finishing.{own_tx, finished_view, HasCommitted, HasEnded};

use crate::WordHub;
use crate::floor::Floor;
use crate::looks::Extent;
use crate::placing::{OwnTx, Placing};
use crate::wakes::Ending;
use pgn_base::{CLEANUP_DELAY_PAGES, Full, Note, Usage, Xid};
use pgn_journal::Fate;
use pgn_words::WordPass;
use std::sync::Wait;

impl WordHub {
    // Ends the transaction with a fate, and wakes those that it concerns.
    fn finish(&self, pass: &mut WordPass, tx: &OwnTx, fate: Fate, placing: &Placing)
        requires own { IsPassOf self.now.queue pass.old }
        requires phase { (view_of pass.old).phase ≡ phases.Open }
        requires xid { tx.now.xid ≡ next_xid (known_of pass.old).seen }
        requires reach { length (known_of pass.old).seen
            < notes_of_seats (hub_shape self.now).seats }
        requires low { placing.now.placed < 2 ^ 32 }
        requires ends { MayEnd (view_of pass.old)
            (own_tx (view_of pass.old) placing.now.placed fate) }
        requires head { placing.now.at
            ≡ length (image (hub_shape self.now).format
            ((known_of pass.old).seen ++ own_tx (view_of pass.old) placing.now.placed fate
            ∷ [])) }
        requires sent { tx.now.sent ≡ interest (channels_of (view_of pass.old).pen.notes) }
        ensures own { IsPassOf self.now.queue pass.new }
        ensures view { view_of pass.new
            ≡ finished_view (own_tx (view_of pass.old) placing.now.placed fate)
            (view_of pass.new).verdicts (view_of pass.new).concerned (view_of pass.old) }
        ensures decided { AreDecided (view_of pass.new).verdicts }
    {
        let queued = placing.placed as u32;
        self.queue.set_status(pass, tx.xid, fate, queued);
        self.queue.store_fin(pass, tx.xid);
        let ending = Ending {
            head: placing.at,
            sent: tx.sent,
            fate,
        };
        self.wake(pass, &ending);
    }

    // After a commit, advances the tail once in a while: where the head has entered a page whose number is a multiple of four.
    fn clean_up(&self, pass: &mut WordPass, tx: &OwnTx, placing: &Placing)
        requires own { IsPassOf self.now.queue pass.old }
        requires phase { may_look (view_of pass.old).phase ≡ true }
        requires decided { AreDecided (view_of pass.old).verdicts }
        requires number { tx.now.xid + 1 ≡ next_xid (known_of pass.old).seen }
        requires few { tx.now.xid + 1 < 2 ^ 32 }
        requires head { placing.now.at
            ≡ length (image (hub_shape self.now).format (known_of pass.old).seen) }
        requires low { placing.now.at < 2 ^ 32 }
        requires listens { (known_of pass.old).mark ≡ listens_at (view_of pass.old).post }
        requires stop { placing.now.stop ≡ (view_of pass.old).stop }
        ensures own { IsPassOf self.now.queue pass.new }
        ensures tried { HasTried (view_of pass.old) (view_of pass.new) }
    {
        let every = CLEANUP_DELAY_PAGES;
        if tx.from.page() / every < placing.at.page() / every {
            let extent = Extent {
                number: Xid::new(tx.xid.get() + 1),
                head: placing.at,
                stop: placing.stop,
            };
            self.try_advance(pass, &extent);
        }
    }

    // Why a transaction met a full queue.
    fn full_of(xid: Xid, placing: &Placing, floor: &Floor) -> Full
        requires { placing.now.placed < 2 ^ 32 }
        ensures { result ≡ record {
          xid = xid;
          queued = placing.now.placed;
          head_page = page_of placing.now.at;
          floor_mark = floor.now.mark;
          floor_page = page_of floor.now.at;
          holder = floor.now.holder;
        } }
    {
        Full {
            xid,
            queued: placing.placed as u32,
            head_page: placing.at.page(),
            floor_mark: floor.mark,
            floor_page: floor.at.page(),
            holder: floor.holder,
        }
    }

    // Loads the head and the oldest kept page, and draws the number of a transaction with these notifications.
    fn begin(&self, pass: &mut WordPass, notes: &[Note]) -> (Xid, Placing)
        requires own { IsPassOf self.now.queue pass.old }
        requires phase { (view_of pass.old).phase ≡ phases.Held }
        requires valid { All IsNote notes.now }
        requires some { notes.now ≢ [] }
        requires different { AllPairs (λ a b. a ≢ b) notes.now }
        requires few { length notes.now ≤ (known_of pass.old).notes_left }
        ensures own { IsPassOf self.now.queue pass.new }
        ensures view { view_of pass.new ≡ begun_view notes.now result.1.stop (view_of pass.old) }
        ensures number { result.0 ≡ next_xid (known_of pass.old).seen }
        ensures placing { IsPlacing (view_of pass.new) notes.now result.1.placed result.1.at }
        ensures none_placed { result.1.placed ≡ 0 }
        ensures start { result.1.at
            ≡ length (image (hub_shape self.now).format (known_of pass.old).seen) }
    {
        let at = self.queue.load_head(pass);
        let stop = self.queue.load_stop(pass);
        let xid = self.queue.draw_xid(pass, notes);
        let placing = Placing {
            at,
            stop,
            placed: 0,
        };
        (xid, placing)
    }

    // Ends a transaction of which all notifications are placed.
    fn commit(&self, pass: &mut WordPass, tx: &OwnTx, placing: &Placing)
        requires own { IsPassOf self.now.queue pass.old }
        requires phase { (view_of pass.old).phase ≡ phases.Open }
        requires xid { tx.now.xid ≡ next_xid (known_of pass.old).seen }
        requires reach { length (known_of pass.old).seen
            < notes_of_seats (hub_shape self.now).seats }
        requires placed { placing.now.placed < 2 ^ 32 }
        requires ends { MayEnd (view_of pass.old)
            (own_tx (view_of pass.old) placing.now.placed fates.Committed) }
        requires end { placing.now.at ≡ length (view_of pass.old).pen.cells }
        requires low { placing.now.at < 2 ^ 32 }
        requires stop { placing.now.stop ≡ (view_of pass.old).stop }
        requires listens { (known_of pass.old).mark ≡ listens_at (view_of pass.old).post }
        requires sent { tx.now.sent ≡ interest (channels_of (view_of pass.old).pen.notes) }
        ensures own { IsPassOf self.now.queue pass.new }
        ensures committed { HasCommitted (view_of pass.old) (view_of pass.new)
            (own_tx (view_of pass.old) placing.now.placed fates.Committed) }
    {
        self.finish(pass, tx, Fate::Committed, placing);
        self.clean_up(pass, tx, placing);
    }

    // Publishes a transaction under the lock, which sends on the channels of these bits. The pass is told of it once it gives the lock up.
    pub(crate) fn publish_locked<R: Wait>(
        &self,
        rt: &R,
        pass: &mut WordPass,
        notes: &[Note],
        sent: u64,
    ) -> Result<Xid, Full>
        requires own { IsPassOf self.now.queue pass.old }
        requires sent { sent ≡ interest (channels_of notes.now) }
        requires phase { (view_of pass.old).phase ≡ phases.Held }
        requires decided { AreDecided (view_of pass.old).verdicts }
        requires listens { (known_of pass.old).mark ≡ listens_at (view_of pass.old).post }
        requires room { length (known_of pass.old).seen + (known_of pass.old).notes_left
            ≤ notes_of_seats (hub_shape self.now).seats }
        requires valid { All IsNote notes.now }
        requires some { notes.now ≢ [] }
        requires different { AllPairs (λ a b. a ≢ b) notes.now }
        requires few { length notes.now ≤ (known_of pass.old).notes_left }
        ensures own { IsPassOf self.now.queue pass.new }
        ensures ended { HasEnded (view_of pass.old) (view_of pass.new) }
        ensures committed { IfOk result (λ x. HasPublished (known_of pass.old)
            (freed (view_of pass.new)).known notes.now x) }
        ensures full { IfErr result (λ full. HasMetFull (hub_shape self.now) (known_of pass.old)
            (freed (view_of pass.new)).known notes.now full) }
    {
        let (xid, mut placing) = self.begin(pass, notes);
        let tx = OwnTx {
            notes,
            sent,
            xid,
            from: placing.at,
        };
        match self.place_all(rt, pass, &tx, &mut placing) {
            None => {
                self.commit(pass, &tx, &placing);
                Ok(xid)
            }
            Some(floor) => {
                self.finish(pass, &tx, Fate::Aborted, &placing);
                Err(WordHub::full_of(xid, &placing, &floor))
            }
        }
    }

    // What is in use, under the lock.
    pub(crate) fn measure<R: Wait>(&self, rt: &R, pass: &mut WordPass) -> Usage
        requires own { IsPassOf self.now.queue pass.old }
        requires phase { (view_of pass.old).phase ≡ phases.Held }
        requires decided { AreDecided (view_of pass.old).verdicts }
        requires listens { (known_of pass.old).mark ≡ listens_at (view_of pass.old).post }
        ensures own { IsPassOf self.now.queue pass.new }
        ensures view { view_of pass.new
            ≡ advanced_view (view_of pass.new) (stop_known (view_of pass.new).loaded_stop
            (head_known (view_of pass.old))) }
        ensures measured { HasMeasured (hub_shape self.now) (known_of pass.old) (known_of pass.new)
            result }
    {
        let head = self.queue.load_head(pass);
        let stop = self.queue.load_stop(pass);
        let at = self.queue.load_fin(pass);
        let extent = Extent {
            number: at,
            head,
            stop,
        };
        let (floor, _) = self.advance(rt, pass, &extent);
        Usage {
            at,
            occupied: head.page() - floor.at.page(),
            limit: self.pages,
            floor_mark: floor.mark,
            holder: floor.holder,
        }
    }
}

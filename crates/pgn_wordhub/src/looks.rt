ghost use Rattle.std.specs.Prelude.{◌≡◌, ◌≢◌, ◌^◌, ◌<◌, ◌≤◌, max, true, length, slice_get, Some, IfSome};
ghost use Rattle.pgn_lanes.specs.Least.{least_with};
ghost use Rattle.pgn_journal.specs.Journal.{next_xid};
ghost use Rattle.pgn_journal.specs.Packing.{page_of, image};
ghost use Rattle.pgn_words.specs.Passes.{IsPassOf, view_of, known_of};
ghost use Rattle.pgn_words.specs.Positions.{packed, mark_in, listens_at};
ghost use Rattle.pgn_words.specs.Views.{may_look, AreDecided};
ghost use Rattle.pgn_words.specs.Looking.{second_begun, stopped, MayLookSecond, HasLookedSecond};
ghost use Rattle.pgn_words.specs.declared.pos_word.PosWord.TheVariants as words;
ghost use Rattle.pgn_words.specs.declared.view.Look.TheVariants as looks;
ghost use Rattle.pgn_wordhub.specs.Passes.{hub_shape};
ghost use Rattle.pgn_wordhub.specs.Looks.{HasSeenFirst, HasSeenSecond, HasSeenSome};
ghost use Rattle.pgn_wordhub.specs.Advancing.{advanced_view, HasAdvancedTo, HasTried};

use crate::WordHub;
use crate::floor::Floor;
use pgn_base::{SECTIONS_MAX, SessionNo, Xid};
use pgn_lanes::least;
use pgn_layout::Pos;
use pgn_words::{PosWord, WordPass};
use std::sync::Wait;
use std::thread;

/// A place for the announced tail, and one for each seat.
const PLACES: usize = SECTIONS_MAX as usize + 1;

/// How far the queue goes, as a pass has found it under the lock: the number that no transaction has yet, the head, and the oldest kept
/// page.
#[derive(Clone, Copy)]
pub(crate) struct Extent {
    pub number: Xid,
    pub head: Pos,
    pub stop: u64,
}

impl WordHub {
    // The first look: the least of the own number and the listeners' marks.
    pub(crate) fn look_first(&self, pass: &mut WordPass, number: Xid, head: Pos) -> Floor
        requires own { IsPassOf self.now.queue pass.old }
        requires phase { may_look (view_of pass.old).phase ≡ true }
        requires decided { AreDecided (view_of pass.old).verdicts }
        requires number { number ≡ next_xid (known_of pass.old).seen }
        requires head { head ≡ length (image (hub_shape self.now).format (known_of pass.old).seen) }
        requires low { head < 2 ^ 32 }
        requires listens { (known_of pass.old).mark ≡ listens_at (view_of pass.old).post }
        ensures own { IsPassOf self.now.queue pass.new }
        ensures seen { HasSeenFirst (view_of pass.old) (view_of pass.new)
            (length (hub_shape self.now).seats) result.mark result.at result.holder }
    {
        let mut floor = Floor {
            mark: number,
            at: head,
            holder: None,
        };
        for seat in 0..self.seats() {
            let position = self.queue.first_look(pass, seat);
            floor.keep_for(seat, position, head);
        }
        floor
    }

    // Announces the tail where the first look found a greater one, and answers its place.
    pub(crate) fn announce(&self, pass: &mut WordPass, floor: &Floor) -> Pos
        requires own { IsPassOf self.now.queue pass.old }
        requires phase { may_look (view_of pass.old).phase ≡ true }
        requires decided { AreDecided (view_of pass.old).verdicts }
        requires look { (view_of pass.old).eye.look ≡ looks.First }
        requires all { (view_of pass.old).eye.looked ≡ length (hub_shape self.now).seats }
        requires least { (view_of pass.old).eye.least ≡ packed floor.now.mark floor.now.at }
        requires low { floor.now.at < 2 ^ 32 }
        ensures own { IsPassOf self.now.queue pass.new }
        ensures view { view_of pass.new
            ≡ second_begun (view_of pass.new).eye.tail (view_of pass.old) }
        ensures tail { result ≡ (view_of pass.new).eye.target }
        ensures announced { mark_in (view_of pass.new).eye.least
            ≤ mark_in (view_of pass.new).eye.tail }
    {
        let (mark, pos) = self.queue.load_tail(pass);
        if mark < floor.mark {
            self.queue.store_tail(pass, floor.mark, floor.at);
            floor.at
        } else {
            pos
        }
    }

    // The position of a seat in the second look, once its session does not join.
    fn look_settled<R: Wait>(&self, rt: &R, pass: &mut WordPass, seat: u32) -> PosWord
        requires own { IsPassOf self.now.queue pass.old }
        requires phase { may_look (view_of pass.old).phase ≡ true }
        requires decided { AreDecided (view_of pass.old).verdicts }
        requires seat { seat < length (hub_shape self.now).seats }
        requires next { MayLookSecond (view_of pass.old) seat }
        ensures own { IsPassOf self.now.queue pass.new }
        ensures looked { HasLookedSecond (view_of pass.old) seat result (view_of pass.new) }
        ensures settled { result ≢ words.Joining }
    {
        'tries: for _ in rt.forever() {
            let position = self.queue.second_look(pass, seat);
            if position != PosWord::Joining {
                return position;
            }
            thread::yield_now();
        }
        unreachable!()
    }

    // The second look, which waits for sessions that join: the first place that is needed.
    fn look_second<R: Wait>(&self, rt: &R, pass: &mut WordPass, floor: &mut Floor, tail: Pos) -> Pos
        requires own { IsPassOf self.now.queue pass.old }
        requires phase { may_look (view_of pass.old).phase ≡ true }
        requires decided { AreDecided (view_of pass.old).verdicts }
        requires begun { HasSeenSecond (view_of pass.old) (view_of pass.old) 0 floor.old.mark
            floor.old.at floor.old.holder }
        requires tail { tail ≡ (view_of pass.old).eye.target }
        requires low { length (image (hub_shape self.now).format (known_of pass.old).seen)
            < 2 ^ 32 }
        requires listens { (known_of pass.old).mark ≡ listens_at (view_of pass.old).post }
        ensures own { IsPassOf self.now.queue pass.new }
        ensures seen { HasSeenSecond (view_of pass.old) (view_of pass.new)
            (length (hub_shape self.now).seats) floor.new.mark floor.new.at floor.new.holder }
        ensures target { result ≡ (view_of pass.new).eye.target }
    {
        let mut places = [0; PLACES];
        places[0] = tail.get();
        for seat in 0..self.seats() {
            let position = self.look_settled(rt, pass, seat);
            places[seat as usize + 1] = floor.keep_for(seat, position, tail);
        }
        WordHub::first_needed(&places[..self.dbs.len() + 1], tail)
    }

    // The second look, which gives up at a session that joins: the first place that is needed.
    fn try_second(&self, pass: &mut WordPass, floor: &mut Floor, tail: Pos) -> Option<Pos>
        requires own { IsPassOf self.now.queue pass.old }
        requires phase { may_look (view_of pass.old).phase ≡ true }
        requires decided { AreDecided (view_of pass.old).verdicts }
        requires begun { HasSeenSecond (view_of pass.old) (view_of pass.old) 0 floor.old.mark
            floor.old.at floor.old.holder }
        requires tail { tail ≡ (view_of pass.old).eye.target }
        requires low { length (image (hub_shape self.now).format (known_of pass.old).seen)
            < 2 ^ 32 }
        requires listens { (known_of pass.old).mark ≡ listens_at (view_of pass.old).post }
        ensures own { IsPassOf self.now.queue pass.new }
        ensures some_seen { HasSeenSome (view_of pass.old) (view_of pass.new) }
        ensures all { IfSome result (λ _. (view_of pass.new).eye.looked
            ≡ length (hub_shape self.now).seats) }
        ensures target { IfSome result (λ target. target ≡ (view_of pass.new).eye.target) }
    {
        let mut places = [0; PLACES];
        places[0] = tail.get();
        for seat in 0..self.seats() {
            let position = self.queue.second_look(pass, seat);
            if position == PosWord::Joining {
                return None;
            }
            places[seat as usize + 1] = floor.keep_for(seat, position, tail);
        }
        Some(WordHub::first_needed(&places[..self.dbs.len() + 1], tail))
    }

    // The least of the places, of which the first is the tail's.
    fn first_needed(places: &[u64], tail: Pos) -> Pos
        requires { slice_get places.now 0 ≡ Some tail }
        ensures { result ≡ least_with tail places.now }
    {
        Pos::new(least(places).unwrap_or(tail.get()))
    }

    // Frees the pages before that of a place, where this is more than before: the oldest kept page.
    fn free(&self, pass: &mut WordPass, target: Pos, stop: u64) -> u64
        requires own { IsPassOf self.now.queue pass.old }
        requires phase { may_look (view_of pass.old).phase ≡ true }
        requires decided { AreDecided (view_of pass.old).verdicts }
        requires second { (view_of pass.old).eye.look ≡ looks.Second }
        requires all { (view_of pass.old).eye.looked ≡ length (hub_shape self.now).seats }
        requires target { target ≡ (view_of pass.old).eye.target }
        requires stop { stop ≡ (view_of pass.old).stop }
        ensures own { IsPassOf self.now.queue pass.new }
        ensures view { view_of pass.new ≡ stopped result (view_of pass.old) }
        ensures greater { result ≡ max stop (page_of target) }
    {
        let page = target.page();
        if stop < page {
            self.queue.store_stop(pass, page);
            page
        } else {
            stop
        }
    }

    // Advances the tail, and waits for sessions that join: the floor, and the oldest kept page.
    pub(crate) fn advance<R: Wait>(
        &self,
        rt: &R,
        pass: &mut WordPass,
        extent: &Extent,
    ) -> (Floor, u64)
        requires own { IsPassOf self.now.queue pass.old }
        requires phase { may_look (view_of pass.old).phase ≡ true }
        requires decided { AreDecided (view_of pass.old).verdicts }
        requires number { extent.now.number ≡ next_xid (known_of pass.old).seen }
        requires head { extent.now.head
            ≡ length (image (hub_shape self.now).format (known_of pass.old).seen) }
        requires low { extent.now.head < 2 ^ 32 }
        requires listens { (known_of pass.old).mark ≡ listens_at (view_of pass.old).post }
        requires stop { extent.now.stop ≡ (view_of pass.old).stop }
        ensures own { IsPassOf self.now.queue pass.new }
        ensures view { view_of pass.new ≡ advanced_view (view_of pass.new) (view_of pass.old) }
        ensures stop { result.1 ≡ (view_of pass.new).stop }
        ensures grows { (view_of pass.old).stop ≤ (view_of pass.new).stop }
        ensures advanced { HasAdvancedTo (hub_shape self.now) (view_of pass.old) (view_of pass.new)
            result.0.mark result.0.at result.0.holder }
    {
        let mut floor = self.look_first(pass, extent.number, extent.head);
        let tail = self.announce(pass, &floor);
        let target = self.look_second(rt, pass, &mut floor, tail);
        let stop = self.free(pass, target, extent.stop);
        (floor, stop)
    }

    // Advances the tail, but for where a session joins.
    pub(crate) fn try_advance(&self, pass: &mut WordPass, extent: &Extent)
        requires own { IsPassOf self.now.queue pass.old }
        requires phase { may_look (view_of pass.old).phase ≡ true }
        requires decided { AreDecided (view_of pass.old).verdicts }
        requires number { extent.now.number ≡ next_xid (known_of pass.old).seen }
        requires head { extent.now.head
            ≡ length (image (hub_shape self.now).format (known_of pass.old).seen) }
        requires low { extent.now.head < 2 ^ 32 }
        requires listens { (known_of pass.old).mark ≡ listens_at (view_of pass.old).post }
        requires stop { extent.now.stop ≡ (view_of pass.old).stop }
        ensures own { IsPassOf self.now.queue pass.new }
        ensures tried { HasTried (view_of pass.old) (view_of pass.new) }
    {
        let mut floor = self.look_first(pass, extent.number, extent.head);
        let tail = self.announce(pass, &floor);
        if let Some(target) = self.try_second(pass, &mut floor, tail) {
            self.free(pass, target, extent.stop);
        }
    }
}

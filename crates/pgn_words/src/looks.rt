ghost use Rattle.std.specs.Prelude.{◌≡◌, ◌+◌, ◌^◌, ◌<◌, true};
ghost use Rattle.pgn_words.specs.Words.{seats_of, pos_at, word_count};
ghost use Rattle.pgn_words.specs.Views.{may_look, AreDecided};
ghost use Rattle.pgn_words.specs.Passes.{IsPassOf, view_of, known_of, shape_of};
ghost use Rattle.pgn_words.specs.Positions.{packed, IsPlacedIn};
ghost use Rattle.pgn_words.specs.Looking.{MayLookFirst, HasLookedFirst, second_begun, MayAnnounce, announced, MayLookSecond, HasLookedSecond, MayFree, stopped};
ghost use Rattle.pgn_words.specs.declared.view.Look.TheVariants as looks;

use crate::pass::{WordPass, WordQueue};
use crate::plays::{FirstLook, LoadTail, SecondLook, StoreStop, StoreTail};
use crate::pos_word::{PosWord, parts_of, position_of, word_of};
use crate::words::{POSITIONS, STOP, TAIL};
use pgn_base::Xid;
use pgn_layout::Pos;

impl WordQueue {
    // The word of a seat's position. Seats count from 0.
    pub(crate) fn word_of_position(&self, seat: u32) -> usize
        requires { seat < seats_of (shape_of self.now) }
        ensures value { result ≡ pos_at + seat }
        ensures within { result < word_count (shape_of self.now) }
    {
        POSITIONS + seat as usize
    }

    /// The position of a seat, in the first look of an advance, which goes from seat to seat from 0 on.
    ///
    /// - *phase*: a hub advances the tail before it draws a number, where its batches find no page, or after it has set its wakes.
    /// - *decided*: before `store_fin` there is no seat to decide on, and after it the wakes come first.
    /// - *seat*, *next*: it goes from seat to seat, from 0 on.
    pub fn first_look(&self, pass: &mut WordPass, seat: u32) -> PosWord
        requires own { IsPassOf self.now pass.old }
        requires phase { may_look (view_of pass.old).phase ≡ true }
        requires decided { AreDecided (view_of pass.old).verdicts }
        requires seat { seat < seats_of (shape_of self.now) }
        requires next { MayLookFirst (view_of pass.old) seat }
        ensures own { IsPassOf self.now pass.new }
        ensures looked { HasLookedFirst (view_of pass.old) seat result (view_of pass.new) }
    {
        let word = self.word_of_position(seat);
        position_of(self.table.shared.load::<FirstLook>(&mut pass.seat, word))
    }

    /// The announced tail, with which the second look begins.
    ///
    /// - *phase*, *decided*: nothing of it has changed since the first look.
    /// - *look*, *all*: a hub calls it once the first look has looked at each seat.
    pub fn load_tail(&self, pass: &mut WordPass) -> (Xid, Pos)
        requires own { IsPassOf self.now pass.old }
        requires phase { may_look (view_of pass.old).phase ≡ true }
        requires decided { AreDecided (view_of pass.old).verdicts }
        requires look { (view_of pass.old).eye.look ≡ looks.First }
        requires all { (view_of pass.old).eye.looked ≡ seats_of (shape_of self.now) }
        ensures own { IsPassOf self.now pass.new }
        ensures view { view_of pass.new
            ≡ second_begun (packed result.0 result.1) (view_of pass.old) }
        ensures placed { IsPlacedIn (shape_of self.now).format (known_of pass.old).seen result.0
            result.1 }
        ensures low { result.1 < 2 ^ 32 }
    {
        let tail = self.table.shared.load::<LoadTail>(&mut pass.seat, TAIL);
        parts_of(tail)
    }

    /// Announces the least mark of the first look, and its place, as the tail.
    ///
    /// - *phase*, *decided*: nothing of it has changed since the first look.
    /// - *least*: a hub keeps the least mark and its place as it looks, and calls it next after `load_tail`, where the loaded mark is
    ///   less.
    /// - *low*: the place is no later than the head, of which `load_head` tells it.
    pub fn store_tail(&self, pass: &mut WordPass, mark: Xid, pos: Pos)
        requires own { IsPassOf self.now pass.old }
        requires phase { may_look (view_of pass.old).phase ≡ true }
        requires decided { AreDecided (view_of pass.old).verdicts }
        requires least { MayAnnounce (view_of pass.old) mark pos }
        requires low { pos < 2 ^ 32 }
        ensures own { IsPassOf self.now pass.new }
        ensures view { view_of pass.new ≡ announced (view_of pass.old) }
    {
        self.table
            .shared
            .store::<StoreTail>(&mut pass.seat, TAIL, word_of(mark, pos));
    }

    /// The position of a seat, in the second look of an advance. A seat whose session joins does not count as looked at.
    ///
    /// - *phase*, *decided*: nothing of it has changed since the first look.
    /// - *seat*, *next*: a hub goes from seat to seat, from 0 on, once the tail has come to the least mark. It looks at a joiner again,
    ///   or gives up.
    pub fn second_look(&self, pass: &mut WordPass, seat: u32) -> PosWord
        requires own { IsPassOf self.now pass.old }
        requires phase { may_look (view_of pass.old).phase ≡ true }
        requires decided { AreDecided (view_of pass.old).verdicts }
        requires seat { seat < seats_of (shape_of self.now) }
        requires next { MayLookSecond (view_of pass.old) seat }
        ensures own { IsPassOf self.now pass.new }
        ensures looked { HasLookedSecond (view_of pass.old) seat result (view_of pass.new) }
    {
        let word = self.word_of_position(seat);
        position_of(self.table.shared.load::<SecondLook>(&mut pass.seat, word))
    }

    /// Lets the pages before this one be used again.
    ///
    /// - *phase*, *decided*: nothing of it has changed since the looks.
    /// - *free*: a hub calls it once the second look has looked at each seat, with the page of the first place that is needed, where
    ///   that is later than the oldest kept page.
    pub fn store_stop(&self, pass: &mut WordPass, page: u64)
        requires own { IsPassOf self.now pass.old }
        requires phase { may_look (view_of pass.old).phase ≡ true }
        requires decided { AreDecided (view_of pass.old).verdicts }
        requires free { MayFree (view_of pass.old) page }
        ensures own { IsPassOf self.now pass.new }
        ensures view { view_of pass.new ≡ stopped page (view_of pass.old) }
    {
        self.table
            .shared
            .store::<StoreStop>(&mut pass.seat, STOP, page);
    }
}

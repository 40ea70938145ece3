ghost use Rattle.std.specs.Prelude.{◌≡◌, ◌+◌, ◌<◌};
ghost use Rattle.pgn_words.specs.Words.{flags_at as first_flag, word_count};
ghost use Rattle.pgn_words.specs.Passes.{IsPassOf, view_of, known_of, shape_of};
ghost use Rattle.pgn_words.specs.Waking.{raised, HasLooked};

use crate::meeting::{later_of, owes_after};
use crate::pass::{WordPass, WordQueue};
use crate::plays::{LookFlag, RaiseFlag};
use pgn_base::Xid;
use std::sync::Wait;
use std::time::Duration;

impl WordQueue {
    // The word of a flag. Flags count from 0.
    fn word_of_flag(&self, flag: u32) -> usize
        requires { flag < (shape_of self.now).flags }
        ensures value { result ≡ first_flag (shape_of self.now) + flag }
        ensures within { result < word_count (shape_of self.now) }
    {
        self.flags_at + flag as usize
    }

    /// Raises a flag with what the pass was told, and answers it. The flag keeps the greatest number, and whoever sleeps on it wakes.
    ///
    /// - *flag*: a hub's `raise` asks its own caller for one of the flags that there are.
    pub fn raise_flag(&self, pass: &mut WordPass, flag: u32) -> Xid
        requires own { IsPassOf self.now pass.old }
        requires flag { flag < (shape_of self.now).flags }
        ensures own { IsPassOf self.now pass.new }
        ensures view { view_of pass.new ≡ raised flag (view_of pass.old) }
        ensures told { result ≡ (known_of pass.old).told }
    {
        let word = self.word_of_flag(flag);
        let told = u64::from(pass.told.get());
        self.table
            .shared
            .fetch_max::<RaiseFlag>(&mut pass.seat, word, told);
        self.table.shared.wake_all(word);
        pass.told
    }

    /// The greatest number that a flag was raised with, if it was raised. The pass is told of it, and a listener that is so told of more
    /// owes a read: its wakes may still have to be set.
    ///
    /// - *flag*: a hub's `look` asks its own caller for one of the flags that there are.
    pub fn look_flag(&self, pass: &mut WordPass, flag: u32) -> Option<Xid>
        requires own { IsPassOf self.now pass.old }
        requires flag { flag < (shape_of self.now).flags }
        ensures own { IsPassOf self.now pass.new }
        ensures looked { HasLooked (view_of pass.old) flag result (view_of pass.new) }
    {
        let word = self.word_of_flag(flag);
        let found = self.table.shared.load::<LookFlag>(&mut pass.seat, word);
        if found == 0 {
            return None;
        }
        let found = Xid::new(found as u32);
        pass.owes = owes_after(pass.owes, pass.mark.is_some(), pass.told, found);
        pass.told = later_of(pass.told, found);
        Some(found)
    }

    /// Sleeps until a flag is raised, for so long at most. It is no step, and needs no pass. A flag that was not raised is 0, and a
    /// number is neither 0 nor above 32 bits, so no raise is slept over.
    ///
    /// - *flag*: a hub's `rest` asks its own caller for one of the flags that there are.
    pub fn sleep_on_flag<R: Wait>(&self, rt: &R, flag: u32, time: Duration)
        requires flag { flag < (shape_of self.now).flags }
    {
        let word = self.word_of_flag(flag);
        self.table.shared.park_timeout(rt, word, 0, time);
    }
}

ghost use Rattle.std.specs.Prelude.{◌≡◌, true};
ghost use Rattle.pgn_words.specs.Passes.{IsPassOf, view_of};
ghost use Rattle.pgn_words.specs.Views.{is_settled};
ghost use Rattle.pgn_words.specs.Told.{HasLocked};
ghost use Rattle.pgn_words.specs.declared.view.Phase.TheVariants as phases;

use crate::WordHub;
use pgn_words::WordPass;
use std::sync::Wait;
use std::thread;

impl WordHub {
    // Waits for the lock. The pass then holds it, and knows the whole journal.
    pub(crate) fn lock<R: Wait>(&self, rt: &R, pass: &mut WordPass)
        requires own { IsPassOf self.now.queue pass.old }
        requires free { (view_of pass.old).phase ≡ phases.Free }
        requires settled { is_settled (view_of pass.old).post.listen ≡ true }
        ensures own { IsPassOf self.now.queue pass.new }
        ensures locked { HasLocked (view_of pass.old) (view_of pass.new) }
    {
        'tries: for _ in rt.forever() {
            if self.queue.try_lock(pass).is_ok() {
                break;
            }
            thread::yield_now();
        }
    }
}

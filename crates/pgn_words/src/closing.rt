ghost use Rattle.std.specs.Prelude.{◌≡◌, map, length, All};
ghost use Rattle.std.specs.List.{range_with_len};
ghost use Rattle.pgn_hub.specs.Gathered.{Gathered};
ghost use Rattle.pgn_words.specs.Passes.{IsPassOf, IsAtRest, view_of, known_of, shape_of};
ghost use Rattle.pgn_words.specs.Closing.{taken_in};
ghost use Rattle.pgn_words.specs.declared.view.Listen.TheVariants as listens;
ghost use Rattle.pgn_words.specs.declared.view.Phase.TheVariants as phases;

use crate::pass::{WordPass, WordQueue};
use crate::plays::JoinPass;
use crate::words::FIN;
use pgn_base::FIRST_XID;
use pgn_hub::Roll;

impl WordQueue {
    // Takes another pass in, which is no listener.
    fn take_in(&self, first: &mut WordPass, other: WordPass)
        requires own { IsPassOf self.now first.old }
        requires other { IsPassOf self.now other }
        requires free { (view_of other).phase ≡ phases.Free }
        requires out { (view_of other).post.listen ≡ listens.Out }
        ensures own { IsPassOf self.now first.new }
        ensures view { view_of first.new ≡ taken_in (view_of first.old) (view_of other) }
    {
        let WordPass {
            seat,
            session: _,
            db: _,
            mark: _,
            told: _,
            notes_left: _,
            ended: _,
            base: _,
            at: _,
            owes: _,
        } = other;
        self.table
            .shared
            .join_seat::<JoinPass>(&mut first.seat, seat);
    }

    // Makes a listener none.
    fn settle(&self, pass: &mut WordPass)
        requires own { IsPassOf self.now pass.old }
        requires rest { IsAtRest (view_of pass.old) }
        ensures own { IsPassOf self.now pass.new }
        ensures rest { IsAtRest (view_of pass.new) }
        ensures out { (view_of pass.new).post.listen ≡ listens.Out }
        ensures known { known_of pass.new ≡ record (known_of pass.old) { mark = None } }
    {
        if pass.mark.is_some() {
            self.store_out(pass);
        }
    }

    /// Ends the queue with all of its passes, in order: how many transactions its journal has.
    ///
    /// - *own*, *all*: a hub's `gather` asks its own caller for all passes of the hub, in order.
    /// - *rest*: between a hub's calls each pass is at rest.
    pub fn close(self, mut passes: Vec<WordPass>) -> Roll
        requires own { All (IsPassOf self) passes.items }
        requires rest { All (λ pass. IsAtRest (view_of pass)) passes.items }
        requires all { map (λ pass. (known_of pass).session) passes.items
            ≡ range_with_len 1 (length (shape_of self).seats) }
        ensures { Gathered (map known_of passes.items) result.count }
    {
        let mut first = passes.remove(0);
        self.settle(&mut first);
        for mut pass in passes {
            self.settle(&mut pass);
            self.take_in(&mut first, pass);
        }
        let WordQueue { table, .. } = self;
        let WordPass { seat, .. } = first;
        let closed = table.close_with(seat);
        let fin = closed.word(FIN);
        closed.free();
        Roll {
            count: (fin - u64::from(FIRST_XID)) as u32,
        }
    }
}

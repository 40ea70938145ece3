ghost use Rattle.std.specs.Prelude.{◌≡◌, ℕ, ◌^◌, ◌<◌, ◌≤◌, length, None};
ghost use Rattle.pgn_hub.specs.Calls.{HasEnlisted};
ghost use Rattle.pgn_words.specs.Passes.{IsPassOf, view_of, known_of};
ghost use Rattle.pgn_words.specs.declared.view.Stage.TheVariants as stages;
ghost use Rattle.pgn_wordhub.specs.Passes.{IsHubPass};
ghost use Rattle.pgn_wordhub.specs.Walks.{Leads, HasWay, shown_cells};

use crate::WordHub;
use pgn_base::{Enlisted, Xid};
use pgn_layout::{Pos, advance};
use pgn_words::WordPass;

impl WordHub {
    // Goes from a place on up to the first entry whose number is not below `fin`, or to the head.
    fn come_to(&self, pass: &mut WordPass, from: Pos, head: Pos, fin: Xid) -> Pos
        requires own { IsPassOf self.now.queue pass.old }
        requires shown { (view_of pass.old).walk.stage ≡ stages.Shown }
        requires from { (view_of pass.old).post.at ≤ from }
        requires head { head ≡ length (shown_cells (view_of pass.old)) }
        requires low { head < 2 ^ 32 }
        requires way { HasWay self.now.format (shown_cells (view_of pass.old)) fin from }
        ensures own { IsPassOf self.now.queue pass.new }
        ensures view { view_of pass.new ≡ view_of pass.old }
        ensures come { (end : ℕ)
            → Leads self.now.format (shown_cells (view_of pass.old)) fin from end → result ≡ end }
    {
        let mut at = from;
        let last = head.get();
        let end = fin.get();
        while at.get() < last {
            let cells = self.head_at(pass, at);
            if cells.xid >= end {
                return at;
            }
            at = advance(self.format, at, cells.len);
        }
        at
    }

    // Makes the session a listener.
    pub(crate) fn join(&self, pass: &mut WordPass) -> Enlisted
        requires own { IsHubPass self.now pass.old }
        requires out { (known_of pass.old).mark ≡ None }
        ensures own { IsHubPass self.now pass.new }
        ensures enlisted { HasEnlisted (known_of pass.old) (known_of pass.new) result }
    {
        self.queue.mark_joining(pass);
        let (base, from) = self.queue.load_base(pass);
        self.queue.store_valid(pass);
        let point = self.queue.begin_walk(pass);
        let head = self.queue.show_head(pass);
        let at = self.come_to(pass, from, head, point);
        self.queue.store_forward(pass, point, at);
        Enlisted { base, point }
    }
}

ghost use Rattle.std.specs.Prelude.{◌≡◌, true, IfErr, OnOk};
ghost use Rattle.pgn_words.specs.Passes.{IsPassOf, view_of};
ghost use Rattle.pgn_words.specs.Views.{is_settled, may_drop, AreDecided};
ghost use Rattle.pgn_words.specs.Told.{HasLocked, IsLocked, refused, freed};
ghost use Rattle.pgn_words.specs.declared.view.Phase.TheVariants as phases;

use crate::pass::{WordPass, WordQueue};
use crate::plays::{DropLock, TryLock};
use crate::words::LOCK;
use pgn_base::SessionNo;

/// Another session holds the lock.
#[derive(Clone, Copy)]
pub struct Held {
    pub by: SessionNo,
}

impl WordQueue {
    /// Takes the lock, if nobody holds it. The holder knows the whole journal. Where it is refused, the pass keeps the session that this
    /// try has found.
    ///
    /// - *phase*: a hub's pass is free between the hub's calls, and a call that takes the lock gives it up.
    /// - *settled*: so it does not join either, since `enlist` ends with a listener: a joiner that looked at its own seat as a holder
    ///   would wait for itself.
    pub fn try_lock(&self, pass: &mut WordPass) -> Result<(), Held>
        requires own { IsPassOf self.now pass.old }
        requires phase { (view_of pass.old).phase ≡ phases.Free }
        requires settled { is_settled (view_of pass.old).post.listen ≡ true }
        ensures own { IsPassOf self.now pass.new }
        ensures locked { OnOk result (HasLocked (view_of pass.old) (view_of pass.new)) }
        ensures held { IfErr result (λ held. IsLocked (view_of pass.old) held.by) }
        ensures met { IfErr result (λ held. view_of pass.new ≡ refused held.by (view_of pass.old)) }
    {
        let number = u64::from(pass.session.get());
        let by = self
            .table
            .shared
            .compare_exchange::<TryLock>(&mut pass.seat, LOCK, 0, number);
        if by == 0 {
            Ok(())
        } else {
            Err(Held {
                by: SessionNo::new(by as u32),
            })
        }
    }

    /// Gives the lock up, with no transaction open. Where it has finished one, it is told of it.
    ///
    /// - *phase*: a hub's `publish` and `usage` call it last, with no number drawn, or once the transaction is finished.
    /// - *decided*: by then `publish` has looked at each seat, and has set the wakes that are needed.
    pub fn drop_lock(&self, pass: &mut WordPass)
        requires own { IsPassOf self.now pass.old }
        requires phase { may_drop (view_of pass.old).phase ≡ true }
        requires decided { AreDecided (view_of pass.old).verdicts }
        ensures own { IsPassOf self.now pass.new }
        ensures view { view_of pass.new ≡ freed (view_of pass.old) }
    {
        self.table.shared.store::<DropLock>(&mut pass.seat, LOCK, 0);
        pass.told = pass.ended.unwrap_or(pass.told);
        pass.ended = None;
    }
}

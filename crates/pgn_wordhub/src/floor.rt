ghost use Rattle.std.specs.Prelude.{◌≡◌, ℕ, ◌^◌, ◌∷◌, ◌++◌, ◌<◌, ◌≤◌, List, [], length, min, true, false, IfSome, IsSomeAnd};
ghost use Rattle.pgn_base.specs.declared.format.Format.{Format};
ghost use Rattle.pgn_base.specs.declared.limits.TheConstants.{SECTIONS_MAX};
ghost use Rattle.pgn_journal.specs.declared.tx.Tx.{Tx};
ghost use Rattle.pgn_journal.specs.Packing.{image};
ghost use Rattle.pgn_words.specs.Positions.{packed, met_at, place_or, IsPlacedIn, IsPositionIn};
ghost use Rattle.pgn_words.specs.Looking.{least_after};
ghost use Rattle.pgn_wordhub.specs.Floors.{IsFloorOf};

use pgn_base::{SessionNo, Xid};
use pgn_layout::Pos;
use pgn_words::PosWord;

/// The least mark so far and its place, and the session that stands there: the lowest one, and nobody where no mark is below the
/// number from which the looks began.
#[derive(Clone, Copy)]
pub(crate) struct Floor {
    pub mark: Xid,
    pub at: Pos,
    pub holder: Option<SessionNo>,
}

impl Floor {
    // A session was met at a mark.
    fn meet(&mut self, session: SessionNo, mark: Xid, at: Pos)
        ensures met { (format : Format) (seen : List Tx) (met : List (ℕ × ℕ)) (least : ℕ)
            → length (image format seen) < 2 ^ 32 → IsPlacedIn format seen mark at
            → IsFloorOf format seen met least self.old.mark self.old.at self.old.holder
            → IsFloorOf format seen (met ++ (session, mark) ∷ []) (min (packed mark at) least)
            self.new.mark self.new.at self.new.holder }
    {
        if mark < self.mark {
            self.mark = mark;
            self.at = at;
            self.holder = Some(session);
        } else if mark == self.mark && self.is_held_after(session) {
            self.holder = Some(session);
        }
    }

    // A look has found a position at a seat: the place that is kept for it, the tail's where nobody listens there.
    pub(crate) fn keep_for(&mut self, seat: u32, position: PosWord, tail: Pos) -> u64
        requires { seat < SECTIONS_MAX }
        ensures met { (format : Format) (seen : List Tx) (met : List (ℕ × ℕ)) (least : ℕ)
            → length (image format seen) < 2 ^ 32 → IsPositionIn format seen position
            → IsFloorOf format seen met least self.old.mark self.old.at self.old.holder
            → IsFloorOf format seen (met ++ met_at seat position) (least_after position least)
            self.new.mark self.new.at self.new.holder }
        ensures place { result ≡ place_or tail position }
    {
        match position {
            PosWord::At { mark, pos } => {
                self.meet(SessionNo::new(seat + 1), mark, pos);
                pos.get()
            }
            _ => tail.get(),
        }
    }

    // The floor is held by a session with a higher number.
    fn is_held_after(&self, session: SessionNo) -> bool
        ensures after { result ≡ true → IsSomeAnd self.now.holder (λ holder. session < holder) }
        ensures not_after { result ≡ false → IfSome self.now.holder (λ holder. holder ≤ session) }
    {
        match self.holder {
            Some(holder) => session < holder,
            None => false,
        }
    }
}

ghost use Rattle.std.specs.Prelude.{◌≡◌};
ghost use Rattle.pgn_words.specs.Passes.{known_of, view_of};

use crate::pass::WordPass;
use pgn_base::{DbOid, SessionNo, Xid};
use pgn_hub::PassView;
use pgn_layout::Pos;

impl PassView for WordPass {
    ghost use Rattle.pgn_words.specs.Passes.{known_of};

    ghost known = { known_of };

    fn session(&self) -> SessionNo {
        self.session
    }

    fn db(&self) -> DbOid {
        self.db
    }

    fn mark(&self) -> Option<Xid> {
        self.mark
    }
}

impl WordPass {
    /// The place of a listener's mark: where the transaction numbered by it begins, or would begin.
    pub fn place(&self) -> Pos
        ensures { result ≡ (view_of self.now).post.at }
    {
        self.at
    }

    /// Whether a wake was taken that no read has followed.
    pub fn owes(&self) -> bool
        ensures { result ≡ (known_of self.now).owes }
    {
        self.owes
    }
}

ghost use Rattle.std.specs.Prelude.{ℕ, List, [], ◌∷◌};
ghost use Rattle.pgn_hub.specs.Shape.{Shape};
ghost use Rattle.pgn_journal.specs.declared.tx.Tx.{Tx};
ghost use Rattle.pgn_examples.specs.Merge.{note_a, of_session};
ghost use Rattle.pgn_model.specs.declared.item.Item.TheVariants.{Publish};
ghost use Rattle.pgn_session.specs.declared.session.Session.{Session};
ghost use Rattle.pgn_threads.specs.Ended.{HaveEnded};

/// What sessions do not come to.
pub fn refused_ends()
    // The notifications of the first commit are still in its trace.
    ensures kept { (shape : Shape) (sessions : List (Session ℕ)) (journal : List Tx) → HaveEnded shape sessions journal (of_session 1 7 (Publish 3 (note_a ∷ []) ∷ []) ∷ []) → ⊥ }
    // There is a trace of no session, or a session without one.
    ensures more { (shape : Shape) (journal : List Tx) → HaveEnded {P = ℕ} shape [] journal (of_session 1 7 [] ∷ []) → ⊥ }
    ensures fewer { (shape : Shape) (session : Session ℕ) (journal : List Tx) → HaveEnded shape (session ∷ []) journal [] → ⊥ }
{}

ghost use Rattle.std.specs.Prelude.{ℕ, true, false, [], ◌∷◌};
ghost use Rattle.pgn_outlet.specs.Rule.{Comes, hand};
ghost use Rattle.pgn_part_examples.specs.Outlet.{number_of};

/// Two sessions have pushed a number each, and the first of them was taken.
pub fn met()
    ensures { Comes (number_of 2 5 ∷ []) (hand 1 1 (number_of 1 3 ∷ []) false [] ∷ hand 2 1 (number_of 2 5 ∷ []) false [] ∷ hand 1 0 [] true (number_of 1 3 ∷ []) ∷ []) }
{}

/// What the rule refuses of a queue.
pub fn refused()
    // What was pushed once is there twice.
    ensures twice { Comes (number_of 1 3 ∷ number_of 1 3 ∷ []) (hand 1 2 (number_of 1 3 ∷ []) true [] ∷ []) → ⊥ }
    // It was taken, and is there still.
    ensures taken_twice { Comes (number_of 1 3 ∷ []) (hand 1 2 (number_of 1 3 ∷ []) true (number_of 1 3 ∷ []) ∷ []) → ⊥ }
    // It is not there, and was not taken.
    ensures lost { Comes [] (hand 1 2 (number_of 1 3 ∷ []) true [] ∷ []) → ⊥ }
    // It is there under another session's number.
    ensures misnamed { Comes (number_of 2 3 ∷ []) (hand 1 2 (number_of 1 3 ∷ []) true [] ∷ []) → ⊥ }
    // Two numbers of one session are there in the other order.
    ensures overtaken { Comes (number_of 1 4 ∷ number_of 1 3 ∷ []) (hand 1 2 (number_of 1 3 ∷ number_of 1 4 ∷ []) true [] ∷ []) → ⊥ }
    // Two passes push for one session, or two take.
    ensures two_senders { Comes {T = ℕ} [] (hand 1 2 [] true [] ∷ hand 2 1 [] false [] ∷ []) → ⊥ }
    ensures two_takers { Comes {T = ℕ} [] (hand 1 2 [] true [] ∷ hand 3 1 [] true [] ∷ []) → ⊥ }
    // A pass has pushed for a session that is not its own.
    ensures foreign { Comes (number_of 3 3 ∷ []) (hand 1 2 (number_of 3 3 ∷ []) true [] ∷ []) → ⊥ }
{}

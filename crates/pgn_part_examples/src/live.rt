ghost use Rattle.std.specs.Prelude.{[], ◌∷◌, ◌++◌};
ghost use Rattle.pgn_part_examples.specs.Live.{line_of};
ghost use Rattle.pgn_live.specs.Lives.{AreFirst, AreWhole};

/// Two sessions, of which each has begun two lines: they may be mixed.
pub fn met()
    ensures whole { AreWhole ((line_of 1 3 ∷ line_of 1 4 ∷ []) ++ line_of 2 5 ∷ []) (line_of 1 3 ∷ line_of 2 5 ∷ line_of 1 4 ∷ []) }
{}

/// What is no text of these sessions.
pub fn refused()
    // A line came twice.
    ensures twice { AreWhole (line_of 1 3 ∷ []) (line_of 1 3 ∷ line_of 1 3 ∷ []) → ⊥ }
    // It did not come.
    ensures lost { AreWhole (line_of 1 3 ∷ []) [] → ⊥ }
    // It came under another session's number.
    ensures misnamed { AreWhole (line_of 1 3 ∷ []) (line_of 2 3 ∷ []) → ⊥ }
    // Something came of a session that there is not.
    ensures foreign { AreWhole (line_of 1 3 ∷ []) (line_of 1 3 ∷ line_of 300 3 ∷ []) → ⊥ }
    // Of two lines of one session the second came alone, or first.
    ensures not_first { AreFirst (line_of 1 3 ∷ line_of 1 4 ∷ []) (line_of 1 4 ∷ []) → ⊥ }
    ensures overtaken { AreWhole (line_of 1 3 ∷ line_of 1 4 ∷ []) (line_of 1 4 ∷ line_of 1 3 ∷ []) → ⊥ }
{}

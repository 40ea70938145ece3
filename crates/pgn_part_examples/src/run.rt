//! How an input of `check` is parted, and what is written live; beside each what is refused.
ghost use Rattle.std.specs.Prelude.{◌≡◌, [], ◌∷◌, ◌++◌, None, Some, codes};
ghost use Rattle.pgn_live.specs.Lives.{came_from};
ghost use Rattle.pgn_run.specs.Checking.{parts_of};
ghost use Rattle.pgn_run.specs.Live.{end_text, live_text};
ghost use Rattle.pgn_part_examples.specs.Run.{came_text, client, ended, ended_text, listens_on, one_sent};
ghost use Rattle.pgn_part_examples.specs.Service.{listens};

/// The first line `\output` parts an input, be it its first line or its last.
pub fn parts()
    ensures first { parts_of (codes "a\n\\output\nb\n\\output\n") ≡ Some (record { scenario = codes "a\n"; output = codes "b\n\\output\n" }) }
    ensures at_the_start { parts_of (codes "\\output\nb") ≡ Some (record { scenario = []; output = codes "b" }) }
    ensures at_the_end { parts_of (codes "a\n\\output") ≡ Some (record { scenario = codes "a\n"; output = [] }) }
    ensures no_such_line { parts_of (codes "\\output b\n \\output\n\\outputs\na\\output\n") ≡ None }
    ensures the_second { parts_of (codes "a\n\\output\nb\n\\output\n") ≡ Some (record { scenario = codes "a\n\\output\nb\n"; output = [] }) → ⊥ }
{}

/// What is written of a live run, and what of it stands behind the lines of the sessions.
pub fn live()
    ensures end { end_text client one_sent (ended ∷ []) ≡ ended_text }
    ensures whole { live_text client (came_from 1 listens ∷ []) one_sent (ended ∷ []) ≡ came_text ++ ended_text }
    // A session that listens on shows its mark, and no line is left out.
    ensures no_mark { end_text client one_sent (listens_on ∷ []) ≡ ended_text → ⊥ }
    ensures lines_left_out { live_text client (came_from 1 listens ∷ []) one_sent (ended ∷ []) ≡ ended_text → ⊥ }
{}

ghost use Rattle.std.specs.Prelude.{◌≡◌, ◌≢◌, Some, None, true, false, ◌∷◌, []};
ghost use Rattle.pgn_lanes.specs.Least.{plain_least};
ghost use Rattle.pgn_lanes.specs.Behind.{plain_behind, Marks};
ghost use Rattle.pgn_lanes.specs.Zero.{plain_zero};

/// The least of a few words: neither the first nor the greatest, and one that stands twice.
pub fn least_examples()
    ensures least { plain_least (7 ∷ 3 ∷ 9 ∷ 3 ∷ []) ≡ Some 3 }
    ensures not_the_first { plain_least (7 ∷ 3 ∷ []) ≢ Some 7 }
    ensures not_below { plain_least (7 ∷ 3 ∷ []) ≢ Some 0 }
    ensures empty { plain_least [] ≡ None }
{}

/// Listeners of two databases before a head at the begin of page 5, and a writer of database 1. Its own listener at the head is not
/// woken, one a cell before it is; another is woken from the last cell of page 1, and not from the first of page 2.
pub fn behind_examples()
    ensures answers { plain_behind 10240 1 (10240 ∷ 10239 ∷ 4095 ∷ 4096 ∷ 10240 ∷ []) (1 ∷ 1 ∷ 2 ∷ 2 ∷ 2 ∷ []) ≡ false ∷ true ∷ true ∷ false ∷ false ∷ [] }
    ensures first_pages { plain_behind 8191 1 (0 ∷ []) (2 ∷ []) ≡ false ∷ [] }
    ensures fifth_page { plain_behind 8192 1 (0 ∷ []) (2 ∷ []) ≡ true ∷ [] }
    ensures mask { Marks (6 ∷ []) (false ∷ true ∷ true ∷ []) }
    ensures one_too_many { ¬ (Marks (7 ∷ []) (false ∷ true ∷ true ∷ [])) }
    ensures one_left_out { ¬ (Marks (2 ∷ []) (false ∷ true ∷ true ∷ [])) }
    ensures past_the_end { ¬ (Marks (6 ∷ 1 ∷ []) (false ∷ true ∷ true ∷ [])) }
{}

/// The first of two zero bytes, and none among others.
pub fn zero_examples()
    ensures first { plain_zero (5 ∷ 0 ∷ 6 ∷ 0 ∷ []) ≡ Some 1 }
    ensures not_the_last { plain_zero (5 ∷ 0 ∷ 6 ∷ 0 ∷ []) ≢ Some 3 }
    ensures none { plain_zero (5 ∷ 6 ∷ []) ≡ None }
    ensures empty { plain_zero [] ≡ None }
{}

ghost use Rattle.std.specs.Prelude.{◌^◌, true, false, [], ◌∷◌, Some};
ghost use Rattle.pgn_base.specs.declared.format.Format.TheVariants.{One};
ghost use Rattle.pgn_part_examples.specs.Hub.{two_seats, tx_3, published};
ghost use Rattle.pgn_words.specs.Views.{no_eye};
ghost use Rattle.pgn_words.specs.Rule.{Keeps, Locks, Draws, KnowsAll};
ghost use Rattle.pgn_words.specs.ListenRule.{IsPlaced, ShowsPosition, Marks, Spared, IsSecond};
ghost use Rattle.pgn_words.specs.WakeRule.{IsHeard, Signals, Covered, Deems, IsMost, IsTold, IsLast, IsTaken};
ghost use Rattle.pgn_words.specs.Each.{Someone};
ghost use Rattle.pgn_part_examples.specs.Words.{listener, listens_on_c, holder};
ghost use Rattle.pgn_words.specs.declared.view.Phase.TheVariants.{Signalling};

/// What the rule refuses of the words and of a writer.
#[tactic(auto, using(crate::proofs::WordSteps::refused_writers))]
pub fn writers()
    // A cell of the image holds another number.
    ensures another_cell { Keeps 2048 0 (Some 44 ∷ []) (45 ∷ []) → ⊥ }
    // The lock's word names another session than its holder.
    ensures another_holder { Locks 1 0 0 holder → ⊥ }
    // The next number is not the first unfinished one, and the holder has drawn none.
    ensures drawn_twice { Draws 3 4 0 holder → ⊥ }
{}

/// What it refuses of listeners and of an advance of the tail.
#[tactic(auto, using(crate::proofs::WordSteps::refused_listeners))]
pub fn listeners()
    // A mark is past the first unfinished number, or its page is not kept.
    ensures too_late { IsPlaced One [] 3 0 4 0 → ⊥ }
    ensures page_gone { IsPlaced One [] 3 1 3 0 → ⊥ }
    // The word of a listener's position says that it is none.
    ensures hidden { ShowsPosition (0 ∷ []) 0 listener → ⊥ }
    // Its mark is not known.
    ensures no_mark { Marks 0 listener → ⊥ }
    // A seat that was looked at stands before the target.
    ensures before_target { Spared 1 2048 0 listener → ⊥ }
    // The second look begins with a target that is not the tail's place.
    ensures other_target { IsSecond 0 2048 12884901888 no_eye → ⊥ }
{}

/// What it refuses of wakes and flags.
#[tactic(auto, using(crate::proofs::WordSteps::refused_wakes))]
pub fn wakes()
    // What was heard goes up to a transaction after which some seat is undecided.
    ensures heard_too_early { IsHeard 4 (λ i. true) 4 → ⊥ }
    // A seat is undecided while the holder does not signal.
    ensures undecided { Signals (λ i. true) 0 holder → ⊥ }
    // The word of a listener's seat lacks the bit of the channel that it has told.
    ensures uncovered { Covered (2 ^ 36 ∷ []) 0 listens_on_c → ⊥ }
    // The transaction is taken to concern a listener of whom the holder knows that it does not.
    ensures deemed { Deems Signalling (λ i. true) (true ∷ false ∷ []) → ⊥ }
    // A listener stands at an earlier mark than its last one.
    ensures earlier_mark { IsLast (3 ∷ 4 ∷ []) 3 → ⊥ }
    // No pass knows the whole journal.
    ensures nobody_knows { Someone (KnowsAll (tx_3 ∷ [])) (listener ∷ []) → ⊥ }
    // A pass that was taken in was told of a transaction that is not finished.
    ensures taken_too_early { IsTaken two_seats 2 3 (λ n. 0) (tx_3 ∷ []) 0 1 published → ⊥ }
    // A pass was told of one that is not finished, or knows the wakes to be set of one that it was not told of.
    ensures told_too_much { IsTold 3 4 3 → ⊥ }
    ensures signalled_untold { IsTold 4 3 4 → ⊥ }
    // A flag was raised with a greater number than its word holds.
    ensures greater { IsMost (3 ∷ []) (0, 4) → ⊥ }
{}

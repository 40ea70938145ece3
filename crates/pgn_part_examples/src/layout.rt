ghost use Rattle.std.specs.Prelude.{◌≡◌, ℕ, ◌+◌, ◌^◌, List, [], ◌∷◌, map, Option};
ghost use Rattle.std.specs.Str.{byte};
ghost use Rattle.pgn_base.specs.declared.format.Format.TheVariants.{One, Two};
ghost use Rattle.pgn_journal.specs.declared.tx.Fate.TheVariants.{Committed, Aborted};
ghost use Rattle.pgn_journal.specs.Packing.{Sender, place_at, filler_cells};
ghost use Rattle.pgn_examples.specs.Packing.{bare_note, letters};
ghost use Rattle.pgn_layout.specs.Batches.{Runs, IsPlanned, AreBatches, fillers_from, IsPlaced};
ghost use Rattle.pgn_layout.specs.Status.{status_word, status_in, status_set};
ghost use Rattle.pgn_part_examples.specs.Layout.{to_the_edge, over_the_edge, first_batch, last_batch, to_the_edge_two, over_the_edge_two, first_batch_two, last_batch_two};

/// Entries of 8020 and 152 bytes lead to offset 8172. A third one of 20 bytes takes the rest of the page. One of 24 does not fit
/// there: a filler takes the rest, and the entry is the next batch.
pub fn page_edge()
    ensures fits { IsPlanned One (place_at 0 0) to_the_edge (record { fits = 3; filler = 0; next = place_at 1 0 }) }
    ensures fits_not { IsPlanned One (place_at 0 0) over_the_edge first_batch }
    ensures next_page { IsPlanned One (place_at 1 0) (letters (byte "x") 5 ∷ []) last_batch }
    ensures both { AreBatches One (place_at 0 0) over_the_edge (first_batch ∷ last_batch ∷ []) }
    ensures one_filler { fillers_from One (place_at 0 0) over_the_edge ≡ 20 ∷ [] }
{}

/// The same in format Two. Entries of 8088 and 72 bytes lead to offset 8160. A third one of 32 bytes takes the rest of the page. One
/// of 40 does not fit there: a filler takes the rest, and the entry is the next batch.
#[tactic(auto, using(crate::proofs::LayoutSteps::batches_two))]
pub fn page_edge_of_format_two()
    ensures fits { IsPlanned Two (place_at 0 0) to_the_edge_two (record { fits = 3; filler = 0; next = place_at 1 0 }) }
    ensures fits_not { IsPlanned Two (place_at 0 0) over_the_edge_two first_batch_two }
    ensures next_page { IsPlanned Two (place_at 1 0) (letters (byte "x") 13 ∷ []) last_batch_two }
    ensures both { AreBatches Two (place_at 0 0) over_the_edge_two (first_batch_two ∷ last_batch_two ∷ []) }
    // It has a filler where an entry fits, or one that leaves a part of the page.
    ensures fills_for_nothing { IsPlanned Two (place_at 0 0) to_the_edge_two (record { fits = 2; filler = 32; next = place_at 1 0 }) → ⊥ }
    ensures short_filler { IsPlanned Two (place_at 0 0) over_the_edge_two (record { fits = 2; filler = 24; next = place_at 1 0 }) → ⊥ }
{}

/// Batches that are not planned there.
pub fn other_batches()
    // It stops on the page with a notification left that fits.
    ensures stops_early { IsPlanned One (place_at 0 0) to_the_edge (record { fits = 2; filler = 0; next = place_at 0 8172 }) → ⊥ }
    // It has a filler where an entry fits.
    ensures fills_for_nothing { IsPlanned One (place_at 0 0) to_the_edge (record { fits = 2; filler = 20; next = place_at 1 0 }) → ⊥ }
    // It goes on past the page's end.
    ensures goes_on { IsPlanned One (place_at 0 0) over_the_edge (record { fits = 3; filler = 0; next = place_at 1 24 }) → ⊥ }
    // It has no filler, or one of another length.
    ensures no_filler { IsPlanned One (place_at 0 0) over_the_edge (record { fits = 2; filler = 0; next = place_at 1 0 }) → ⊥ }
    ensures long_filler { IsPlanned One (place_at 0 0) over_the_edge (record { fits = 2; filler = 24; next = place_at 1 0 }) → ⊥ }
    // It ends before its filler.
    ensures ends_before { IsPlanned One (place_at 0 0) over_the_edge (record { fits = 2; filler = 20; next = place_at 0 8172 }) → ⊥ }
    // It writes nothing.
    ensures nothing { IsPlanned One (place_at 0 0) over_the_edge (record { fits = 0; filler = 0; next = place_at 0 0 }) → ⊥ }
    // One batch leaves a notification, and none leaves all.
    ensures leaves_one { AreBatches One (place_at 0 0) over_the_edge (first_batch ∷ []) → ⊥ }
    ensures leaves_all { AreBatches One (place_at 0 0) over_the_edge [] → ⊥ }
    // The three entries do not lie on one page.
    ensures one_page { Runs One (place_at 0 0) over_the_edge → ⊥ }
{}

/// For no notification nothing is written.
pub fn no_notification()
    ensures planned { IsPlanned One (place_at 0 20) [] (record { fits = 0; filler = 0; next = place_at 0 20 }) }
    ensures filler { IsPlanned One (place_at 0 20) [] (record { fits = 0; filler = 8172; next = place_at 1 0 }) → ⊥ }
{}

/// A writer that has placed nothing stands where it began, with no filler where the entry fits.
pub fn nothing_placed()
    ensures there { (sender : Sender) → IsPlaced One sender [] (bare_note ∷ []) 0 (place_at 0 0) [] }
    ensures filler { (sender : Sender) → IsPlaced One sender [] (bare_note ∷ []) 0 (place_at 1 0) (filler_cells One sender (place_at 0 0)) → ⊥ }
    ensures elsewhere { (sender : Sender) (cells : List (Option ℕ)) → IsPlaced One sender [] (bare_note ∷ []) 0 (place_at 0 20) cells → ⊥ }
    ensures too_many { (sender : Sender) (at : ℕ) (cells : List (Option ℕ)) → IsPlaced One sender [] (bare_note ∷ []) 2 at cells → ⊥ }
{}

/// The statuses of the transactions 3, 34, 35 and 66: the first and the last place of the first word and of the second.
pub fn statuses()
    ensures words { map status_word (3 ∷ 34 ∷ 35 ∷ 66 ∷ 67 ∷ []) ≡ 0 ∷ 0 ∷ 1 ∷ 1 ∷ 2 ∷ [] }
    ensures committed { map (λ xid. status_set xid Committed) (3 ∷ 34 ∷ 35 ∷ 66 ∷ []) ≡ 1 ∷ 2 ^ 62 ∷ 1 ∷ 2 ^ 62 ∷ [] }
    ensures aborted { map (λ xid. status_set xid Aborted) (3 ∷ 34 ∷ 35 ∷ 66 ∷ []) ≡ 2 ∷ 2 ^ 63 ∷ 2 ∷ 2 ^ 63 ∷ [] }
    // 3 committed, 4 is in progress, 34 was aborted.
    ensures read { map (status_in (2 ^ 63 + 1)) (3 ∷ 4 ∷ 34 ∷ []) ≡ 1 ∷ 0 ∷ 2 ∷ [] }
{}

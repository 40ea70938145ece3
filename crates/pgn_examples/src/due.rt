ghost use Rattle.std.specs.Prelude.{◌≡◌, ◌+◌, ◌^◌, true, false, [], ◌∷◌, codes, map, Some, None};
ghost use Rattle.pgn_journal.specs.Due.{is_due_to};
ghost use Rattle.pgn_base.specs.Interest.{interest};
ghost use Rattle.pgn_journal.specs.Interest.{channels_of, meets, Covers};
ghost use Rattle.pgn_journal.specs.Journal.{IsFinished, next_xid, entry, entries_between, xids_of};
ghost use Rattle.pgn_examples.specs.Due.{c_name, d_name, on, mixed_journal, first_tx, second_tx, third_tx, fourth_tx, fifth_tx, sixth_tx, owed_table, due_by};

/// What is due to whom.
pub fn what_is_due()
    // A reader is owed what was sent on its channels in its database by committed transactions, in order.
    ensures table_of_owed { map due_by owed_table ≡ owed_table }
    // To whom a transaction gives something: to who listens, in its database, on a channel of its notifications, once it has committed.
    ensures listens { is_due_to 1 (c_name ∷ []) first_tx ≡ true }
    ensures listens_to_a_later_one { is_due_to 1 (codes "x" ∷ c_name ∷ []) fourth_tx ≡ true }
    ensures another_channel { is_due_to 1 (codes "x" ∷ []) first_tx ≡ false }
    ensures no_channel { is_due_to 1 [] first_tx ≡ false }
    ensures another_database { is_due_to 1 (c_name ∷ []) second_tx ≡ false }
    ensures aborted { is_due_to 1 (c_name ∷ []) third_tx ≡ false }
{}

/// Journals and their transactions.
pub fn journals()
    // The numbers of a journal's transactions.
    ensures next { next_xid mixed_journal ≡ 9 }
    ensures next_of_none { next_xid [] ≡ 3 }
    ensures entries { map (entry mixed_journal) (3 ∷ 4 ∷ 8 ∷ 9 ∷ []) ≡ Some first_tx ∷ Some second_tx ∷ Some sixth_tx ∷ None ∷ [] }
    ensures between { entries_between mixed_journal 4 6 ≡ second_tx ∷ third_tx ∷ [] }
    ensures of_sessions { map (λ session. xids_of session mixed_journal) (1 ∷ 2 ∷ 3 ∷ 4 ∷ 5 ∷ []) ≡ (3 ∷ 6 ∷ []) ∷ (4 ∷ 7 ∷ []) ∷ (5 ∷ []) ∷ (8 ∷ []) ∷ [] ∷ [] }
    // A finished transaction has notifications, all different: all of them were queued where it committed, and fewer where it was
    // aborted.
    ensures committed { IsFinished fourth_tx }
    ensures aborted { IsFinished third_tx }
    ensures without_notes { IsFinished (record fourth_tx { notes = []; queued = 0 }) → ⊥ }
    ensures repeated_note { IsFinished (record fifth_tx { notes = on d_name (codes "z") ∷ on d_name (codes "z") ∷ []; queued = 2 }) → ⊥ }
    ensures committed_too_early { IsFinished (record fourth_tx { queued = 2 }) → ⊥ }
    ensures aborted_too_late { IsFinished (record third_tx { queued = 2 }) → ⊥ }
{}

/// The bits of channels: `c` is the byte 99, so its bit is 35, and that of `d` is 36. `ab` and `ba` have one bit.
pub fn interests()
    ensures none { interest [] ≡ 0 }
    ensures one { interest (c_name ∷ []) ≡ 2 ^ 35 }
    ensures two { interest (c_name ∷ d_name ∷ []) ≡ 2 ^ 35 + 2 ^ 36 }
    ensures once { interest (c_name ∷ c_name ∷ []) ≡ 2 ^ 35 }
    ensures same_bit { interest (codes "ab" ∷ []) ≡ interest (codes "ba" ∷ []) }
    ensures apart { meets (interest (c_name ∷ [])) (interest (channels_of (on d_name (codes "x") ∷ []))) ≡ false }
    ensures in_common { meets (interest (c_name ∷ [])) (interest (channels_of first_tx.notes)) ≡ true }
    ensures by_the_payload { channels_of (on d_name c_name ∷ []) ≡ c_name ∷ [] → ⊥ }
    ensures another_bit { interest (c_name ∷ []) ≡ interest (d_name ∷ []) → ⊥ }
    ensures uncovered { Covers (2 ^ 35) (c_name ∷ d_name ∷ []) → ⊥ }
    ensures covered_by_none { Covers 0 (c_name ∷ []) → ⊥ }
{}

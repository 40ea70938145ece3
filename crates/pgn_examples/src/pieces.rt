ghost use Rattle.std.specs.Prelude.{◌≡◌, ◌^◌, true, false, [], ◌∷◌, map, codes};
ghost use Rattle.pgn_base.specs.declared.format.Format.TheVariants.{One};
ghost use Rattle.pgn_journal.specs.declared.tx.Fate.TheVariants.{Committed, Aborted};
ghost use Rattle.pgn_journal.specs.Due.{due};
ghost use Rattle.pgn_journal.specs.Packing.{image, place_at};
ghost use Rattle.pgn_journal.specs.Pieces.{AnEntry, AFiller, number_of, lay, pieces_from, gives, give_all, committed_by, QueuesAll, IsReadable, IsSamePiece, IsWritten, draft};
ghost use Rattle.pgn_examples.specs.Runs.{hello, self_notify_journal};
ghost use Rattle.pgn_examples.specs.Packing.{filler_journal};
ghost use Rattle.pgn_examples.specs.Due.{c_name, d_name, on, delivered, mixed_journal, third_tx};
ghost use Rattle.pgn_examples.specs.Pieces.{by, self_notify_pieces, filler_pieces, aborted_pieces, nameless, half_draft, nameless_draft};

/// The pieces of journals.
pub fn pieces_of_journals()
    // The pieces of three journals: of a session that notifies itself, of three notifications with a filler before the last, and of a
    // transaction that was aborted, which ends with a filler unless none of its notifications was queued where a page begins.
    ensures one { pieces_from One 3 0 self_notify_journal ≡ self_notify_pieces }
    ensures filled { pieces_from One 3 0 filler_journal ≡ filler_pieces }
    ensures aborted { pieces_from One 5 0 (third_tx ∷ []) ≡ aborted_pieces }
    ensures none { pieces_from One 5 (place_at 1 0) (record third_tx { queued = 0 } ∷ []) ≡ [] }
    // The pieces of a journal, laid one after another, are its cells.
    ensures laid_pieces { lay One 0 self_notify_pieces ≡ image One self_notify_journal }
    // A transaction that has placed the first of two notifications. Nothing is asked of those that are not queued.
    ensures unfinished_image { image One (half_draft ∷ []) ≡ image One self_notify_journal }
    ensures unfinished_pieces { pieces_from One 3 0 (half_draft ∷ []) ≡ self_notify_pieces }
    ensures moved { pieces_from One 5 0 (draft 3 1 (on c_name (codes "y") ∷ on d_name (codes "y") ∷ []) 1 Aborted ∷ []) ≡ aborted_pieces }
    ensures not_queued { IsWritten (nameless_draft 0) }
    ensures queued { IsWritten (nameless_draft 2) → ⊥ }
    ensures no_db { IsWritten (draft 1 0 (hello ∷ []) 1 Committed) → ⊥ }
    ensures no_session { IsWritten (draft 257 1 (hello ∷ []) 1 Committed) → ⊥ }
{}

/// What pieces give to whom.
pub fn what_pieces_give()
    // A piece gives its notification to a reader of its database that listens on its channel, if its transaction committed. Nothing is
    // given on other channels, in other databases, by an aborted transaction, or by a filler.
    ensures given { gives 1 (c_name ∷ []) (committed_by mixed_journal) (AnEntry (on c_name []) (by 1 3 1001)) ≡ delivered 3 1001 (on c_name []) ∷ [] }
    ensures other_channel { gives 1 (d_name ∷ []) (committed_by mixed_journal) (AnEntry (on c_name []) (by 1 3 1001)) ≡ [] }
    ensures other_db { gives 2 (c_name ∷ []) (committed_by mixed_journal) (AnEntry (on c_name []) (by 1 3 1001)) ≡ [] }
    ensures aborted { gives 1 (c_name ∷ []) (committed_by mixed_journal) (AnEntry (on c_name []) (by 1 5 1003)) ≡ [] }
    ensures past_the_end { gives 1 (c_name ∷ []) (committed_by mixed_journal) (AnEntry (on c_name []) (by 1 9 1001)) ≡ [] }
    ensures filler { gives 0 (c_name ∷ []) (committed_by mixed_journal) (AFiller 20 (by 0 3 1001)) ≡ [] }
    ensures aborted_all { give_all 1 (c_name ∷ d_name ∷ []) (committed_by mixed_journal) aborted_pieces ≡ [] }
    ensures all { give_all 1 (c_name ∷ d_name ∷ []) (committed_by mixed_journal) (pieces_from One 3 0 mixed_journal) ≡ due mixed_journal 3 9 1 (c_name ∷ d_name ∷ []) }
    ensures numbers { map number_of (pieces_from One 3 0 mixed_journal) ≡ 3 ∷ 3 ∷ 3 ∷ 4 ∷ 4 ∷ 5 ∷ 5 ∷ 6 ∷ 6 ∷ 6 ∷ 7 ∷ 8 ∷ 8 ∷ [] }
    // Which numbers committed, and which transactions have queued all.
    ensures which_committed { map (committed_by mixed_journal) (3 ∷ 5 ∷ 8 ∷ 9 ∷ []) ≡ true ∷ false ∷ true ∷ false ∷ [] }
    ensures queues_all { QueuesAll third_tx }
    ensures queues_not_all { QueuesAll (record third_tx { fate = Committed }) → ⊥ }
{}

/// Pieces that are not read back, and pieces that are the same.
pub fn unreadable_and_same_pieces()
    // Pieces that are not read back: a filler that is too short, too long or no multiple of the alignment, a number that does not fit,
    // an entry without a database, and a notification without a name.
    ensures unreadable_short { IsReadable One (AFiller 16 (by 1 3 1001)) → ⊥ }
    ensures unreadable_long { IsReadable One (AFiller 8196 (by 1 3 1001)) → ⊥ }
    ensures unreadable_not_whole { IsReadable One (AFiller 22 (by 1 3 1001)) → ⊥ }
    ensures unreadable_xid { IsReadable One (AFiller 20 (by 1 (2 ^ 32) 1001)) → ⊥ }
    ensures unreadable_no_db { IsReadable One (AnEntry hello (by 0 3 1001)) → ⊥ }
    ensures unreadable_no_name { IsReadable One (AnEntry nameless (by 1 3 1001)) → ⊥ }
    // Which pieces are the same, as far as their bytes tell: fillers of one length, number and process, whatever the database of their
    // sender. An entry is no filler, a filler no entry, and an entry is not one with another notification or another sender.
    ensures same_entry { IsSamePiece (AnEntry hello (by 1 3 1001)) (AnEntry hello (by 1 3 1001)) }
    ensures same_filler { IsSamePiece (AFiller 20 (by 1 3 1001)) (AFiller 20 (by 2 3 1001)) }
    ensures same_entry_no_filler { IsSamePiece (AnEntry hello (by 1 3 1001)) (AFiller 20 (by 1 3 1001)) → ⊥ }
    ensures same_filler_no_entry { IsSamePiece (AFiller 20 (by 1 3 1001)) (AnEntry hello (by 1 3 1001)) → ⊥ }
    ensures same_other_note { IsSamePiece (AnEntry hello (by 1 3 1001)) (AnEntry nameless (by 1 3 1001)) → ⊥ }
    ensures same_other_db { IsSamePiece (AnEntry hello (by 1 3 1001)) (AnEntry hello (by 2 3 1001)) → ⊥ }
    ensures same_other_length { IsSamePiece (AFiller 20 (by 1 3 1001)) (AFiller 24 (by 1 3 1001)) → ⊥ }
    ensures same_other_xid { IsSamePiece (AFiller 20 (by 1 3 1001)) (AFiller 20 (by 1 4 1001)) → ⊥ }
    ensures same_other_pid { IsSamePiece (AFiller 20 (by 1 3 1001)) (AFiller 20 (by 1 3 1002)) → ⊥ }
{}

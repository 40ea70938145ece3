//! Small cases that the definitions of this crate refuse, as theorems, and a few that they meet.
ghost use Rattle.std.specs.Prelude.{ℕ, [], ◌∷◌, List, Option, Some, None};
ghost use Rattle.pgn_base.specs.declared.note.Delivery.{Delivery};
ghost use Rattle.pgn_base.specs.declared.format.Format.{Format};
ghost use Rattle.pgn_base.specs.declared.format.Format.TheVariants.{One};
ghost use Rattle.pgn_journal.specs.declared.tx.Tx.{Tx};
ghost use Rattle.pgn_journal.specs.Pieces.{Piece, AFiller};
ghost use Rattle.pgn_part_examples.specs.Hub.{two_seats, note_a, tx_3, got_a};
ghost use Rattle.pgn_words.specs.declared.view.Verdict.TheVariants.{Unseen};
ghost use Rattle.pgn_words.specs.declared.view.Listen.TheVariants.{Joining};
ghost use Rattle.pgn_part_examples.specs.Words.{listener, holder};
ghost use Rattle.pgn_wordhub.specs.Passes.{IsHubView};
ghost use Rattle.pgn_wordhub.specs.Walks.{StandsAt, IsCell, IsOnWay, Leads, HasWay, Walks, IsWalking, Turns, HasTurned, HasEntry, ArePartsOf, IsDueEntry, HasDueEntry, IsEntryAt, HasEntryAt};
ghost use Rattle.pgn_wordhub.specs.Wakes.{IsWaiting, AreConcerned, IsAtHead};
ghost use Rattle.pgn_wordhub.specs.Placing.{IsPlacing, HasWritten, IsHeldUp};
ghost use Rattle.pgn_wordhub.specs.Floors.{IsFloorOf};
ghost use Rattle.pgn_wordhub.specs.Looks.{HasCome, HasSeenFirst, HasSeenSecond, HasSeenSome};
ghost use Rattle.pgn_wordhub.specs.Advancing.{HasAdvancedTo, HasTried};
ghost use Rattle.pgn_wordhub.specs.Finishing.{HasCommitted, HasEnded};
ghost use Rattle.pgn_part_examples.specs.Wordhub.{first_pass, third_pass, told_of_3, stored_one, writing, undecided_one, loaded_one, aborted_one, first_look, tail_is_late, one_seen, none_freed, sender_3, other_db, far_sender};

/// What is no pass of a hub between calls.
#[tactic(auto, using(crate::proofs::WordhubCases::refused_passes))]
pub fn passes()
    ensures still_holds_the_lock { IsHubView two_seats holder → ⊥ }
    // It is a listener, and its mark is not known.
    ensures no_mark { IsHubView two_seats listener → ⊥ }
    ensures no_seat { IsHubView two_seats third_pass → ⊥ }
    // It has found out something about a seat, has told of the end of a transaction, or has begun to listen and is no listener yet.
    ensures knows_of_a_seat { IsHubView two_seats (record first_pass { verdicts = Unseen ∷ [] }) → ⊥ }
    ensures has_told { IsHubView two_seats (record first_pass { ended = Some 4 }) → ⊥ }
    ensures still_joins { IsHubView two_seats (record first_pass { post = record first_pass.post { listen = Joining } }) → ⊥ }
{}

/// What is no way of a reader over the pieces that the head shows.
#[tactic(auto, using(crate::proofs::WordhubCases::refused_ways))]
pub fn ways()
    ensures nothing_there { (format : Format) (piece : Piece) → StandsAt format [] 0 piece → ⊥ }
    // The number of its transaction does not fit in a cell.
    ensures too_large_a_number { (format : Format) (cells : List (Option ℕ)) (at : ℕ) → StandsAt format cells at (AFiller 32 far_sender) → ⊥ }
    ensures another_number { IsCell (Some 44 ∷ []) 0 45 → ⊥ }
    // A piece of an unfinished transaction is still to be read.
    ensures unfinished { (format : Format) (cells : List (Option ℕ)) (end : ℕ) → IsOnWay format cells 3 0 end (AFiller 8 sender_3 ∷ []) [] → ⊥ }
    // One of a finished transaction is left out.
    ensures left_out { (format : Format) (cells : List (Option ℕ)) (end : ℕ) → IsOnWay format cells 4 0 end [] (AFiller 8 sender_3 ∷ []) → ⊥ }
    // The reader has gone past the cells that the head shows.
    ensures past_the_head { (format : Format) → Leads format [] 3 1 1 → ⊥ }
    ensures no_way { (format : Format) → HasWay format [] 3 1 → ⊥ }
    ensures no_walk { (format : Format) (owed : List Delivery) → Walks format [] 3 1 [] [] 1 1 [] owed → ⊥ }
    ensures none_walking { (format : Format) → IsWalking format [] 3 1 [] [] 1 [] → ⊥ }
    // A turn ends before the end, or goes on and stays where it is.
    ensures ends_early { (format : Format) → Turns format [] 3 1 [] [] 0 1 [] [] None → ⊥ }
    ensures stays { (format : Format) → Turns format [] 3 1 [] [] 0 1 [] [] (Some 0) → ⊥ }
    // A turn takes back what the reader had.
    ensures takes_back { (format : Format) → HasTurned format [] 3 1 [] [] 0 (got_a ∷ []) [] None → ⊥ }
{}

/// What is no entry that a reader is to deliver.
#[tactic(auto, using(crate::proofs::WordhubCases::refused_entries))]
pub fn entries()
    ensures no_bytes { (format : Format) → HasEntry format [] → ⊥ }
    ensures another_number { (pid : ℕ) (channel payload : List ℕ) → ArePartsOf note_a sender_3 4 pid channel payload → ⊥ }
    ensures another_database { (format : Format) (seen : List Tx) (bytes : List ℕ) → IsDueEntry format 1 seen bytes note_a other_db → ⊥ }
    // Its transaction is not finished.
    ensures unfinished { (format : Format) (bytes : List ℕ) → HasDueEntry format 1 [] bytes → ⊥ }
    ensures entry_of_another_database { (format : Format) (cells : List (Option ℕ)) (len : ℕ) (seen : List Tx) → IsEntryAt format cells 0 len 1 seen note_a other_db → ⊥ }
    ensures entry_of_an_unfinished_one { (format : Format) (cells : List (Option ℕ)) (len : ℕ) → HasEntryAt format cells 0 len 1 [] → ⊥ }
{}

/// What is no state of a writer, and no end of a transaction.
#[tactic(auto, using(crate::proofs::WordhubCases::refused_writers))]
pub fn writers()
    // A cell is stored past the head.
    ensures not_shown { (placed at : ℕ) → IsPlacing stored_one [] placed at → ⊥ }
    // The place is not the end of the cells.
    ensures ahead_of_the_cells { IsPlacing writing [] 0 1 → ⊥ }
    // What the pass was told has changed as it wrote.
    ensures told_as_it_writes { HasWritten first_pass told_of_3 → ⊥ }
    // All is placed.
    ensures all_placed { (at mark floor : ℕ) (holder : Option ℕ) → IsHeldUp two_seats writing writing 2 2 at mark floor holder → ⊥ }
    // A page is left: the head is on the last page of two.
    ensures page_left { (mark floor : ℕ) (holder : Option ℕ) → IsHeldUp two_seats writing writing 2 0 4095 mark floor holder → ⊥ }
    // A seat may still need a wake.
    ensures commits_undecided { HasCommitted writing undecided_one tx_3 → ⊥ }
    ensures ends_undecided { HasEnded writing undecided_one → ⊥ }
    // It still has its transaction open.
    ensures still_open { HasEnded writing writing → ⊥ }
{}

/// What is no look of an advance, and no floor.
#[tactic(auto, using(crate::proofs::WordhubCases::refused_looks))]
pub fn looks()
    // The floor is past the number, or past a mark that was met.
    ensures past_the_number { (least at : ℕ) → IsFloorOf One [] [] least 4 at None → ⊥ }
    ensures past_a_mark { (least at : ℕ) → IsFloorOf One (tx_3 ∷ []) ((1, 3) ∷ []) least 4 at None → ⊥ }
    // The listener's own seat showed nobody, somebody's showed a listener where the pass is none, or a seat was left out.
    ensures own_seat_is_empty { HasCome 1 (Some 3) 1 (None ∷ []) → ⊥ }
    ensures own_seat_is_not { HasCome 1 None 1 (Some 3 ∷ []) → ⊥ }
    ensures seat_left_out { HasCome 1 None 2 (None ∷ []) → ⊥ }
    ensures second_for_the_first { (mark at : ℕ) (holder : Option ℕ) → HasSeenFirst one_seen one_seen 1 mark at holder → ⊥ }
    // The tail was not announced before the second look.
    ensures late_tail { (mark at : ℕ) (holder : Option ℕ) → HasSeenSecond tail_is_late tail_is_late 0 mark at holder → ⊥ }
    ensures first_for_the_second { HasSeenSome first_look first_look → ⊥ }
{}

/// What is no advance of the tail.
#[tactic(auto, using(crate::proofs::WordhubCases::refused_advances))]
pub fn advances()
    // The second look left out a seat, or freed no page and one could be freed.
    ensures seat_left_out { (mark at : ℕ) (holder : Option ℕ) → HasAdvancedTo two_seats first_pass one_seen mark at holder → ⊥ }
    ensures page_kept { (mark at : ℕ) (holder : Option ℕ) → HasAdvancedTo two_seats first_pass none_freed mark at holder → ⊥ }
    ensures told_as_it_looks { HasTried first_pass told_of_3 → ⊥ }
{}

/// What is no beginning of a look for wakes.
#[tactic(auto, using(crate::proofs::WordhubCases::refused_wakes))]
pub fn wakes()
    ensures not_signalling { IsWaiting two_seats holder → ⊥ }
    // One seat of two is asked about.
    ensures seat_left_out { IsWaiting two_seats undecided_one → ⊥ }
    // Of a seat it is known already that the transaction does not concern it.
    ensures loaded { IsWaiting two_seats loaded_one → ⊥ }
    // A listener of its database that the transaction does not concern is to be tested by that database.
    ensures unconcerned { AreConcerned loaded_one (1 ∷ []) → ⊥ }
    // After one that was aborted it is not to be tested by the writer's.
    ensures none_after_aborted { AreConcerned aborted_one (0 ∷ []) → ⊥ }
    ensures past_the_journal { IsAtHead two_seats first_pass 1 → ⊥ }
{}

ghost use Rattle.std.specs.Prelude.{◌≡◌, true, false, [], ◌∷◌, codes, map};
ghost use Rattle.std.specs.List.{flat_map};
ghost use Rattle.pgn_model.specs.Text.{joined};
ghost use Rattle.pgn_answers.specs.Savepoints.{is_listen, Saved, Noted, survivors, surviving_actions, surviving_notes, live_names, live_changes};
ghost use Rattle.pgn_examples.specs.Savepoints.{s_name, on_c, on_d, list_of, sent_by, repeats, rolled_back_repeat, savepoints_of_one_name, outer_released, back_twice, repeat_across, commands_of_each_kind, commands_without_change, survivors_of_each_kind, actions_of_each_kind, outcomes_of, outcome_lines, failed_block_commands, failed_block_outcomes, failed_block_text, back_in_block_commands, back_in_block_outcomes, outside_commands, outside_text};

/// What survives of a list, and what is sent of it.
pub fn what_survives()
    // A notification that is repeated in a block is sent once, in the place of its first.
    ensures repeats_survive { surviving_notes (list_of repeats) ≡ on_c (codes "a") ∷ on_c (codes "b") ∷ on_c (codes "a") ∷ [] }
    ensures repeats_are_sent_once { sent_by repeats ≡ on_c (codes "a") ∷ on_c (codes "b") ∷ [] }
    // A notification that was rolled back is no repeat of one after it.
    ensures rolled_back_is_gone { survivors (list_of rolled_back_repeat) ≡ Saved s_name ∷ Noted (on_c (codes "a")) ∷ [] }
    ensures rolled_back_is_no_repeat { sent_by rolled_back_repeat ≡ on_c (codes "a") ∷ [] }
    // Each kind of command in one block: what survives of its list, and the actions and notifications that its commit hands out.
    ensures each_kind { survivors (list_of commands_of_each_kind) ≡ survivors_of_each_kind }
    ensures actions_of_each_kind { surviving_actions (list_of commands_of_each_kind) ≡ actions_of_each_kind }
    ensures listening_of_each_kind { map is_listen actions_of_each_kind ≡ true ∷ false ∷ false ∷ true ∷ false ∷ [] }
    ensures notes_of_each_kind { surviving_notes (list_of commands_of_each_kind) ≡ on_c (codes "a") ∷ on_d (codes "a") ∷ on_c (codes "a") ∷ on_d (codes "a") ∷ [] }
    ensures no_change { list_of commands_without_change ≡ [] }
    ensures sent_of_each_kind { sent_by commands_of_each_kind ≡ on_c (codes "a") ∷ on_d (codes "a") ∷ [] }
{}

/// Savepoints of a list: which one is meant, and what goes with it.
pub fn savepoints()
    // Of savepoints of one name the newest that lives is meant.
    ensures newest_is_meant { survivors (list_of savepoints_of_one_name) ≡ Saved s_name ∷ Noted (on_c (codes "4")) ∷ [] }
    ensures newest_sent { sent_by savepoints_of_one_name ≡ on_c (codes "4") ∷ [] }
    // RELEASE of a savepoint takes those after it away too, and keeps what they hold.
    ensures release_keeps { survivors (list_of outer_released) ≡ Noted (on_c (codes "1")) ∷ Noted (on_c (codes "2")) ∷ [] }
    ensures release_takes_later_ones { live_names (list_of outer_released) ≡ [] }
    ensures release_sent { sent_by outer_released ≡ on_c (codes "1") ∷ on_c (codes "2") ∷ [] }
    // ROLLBACK TO keeps its savepoint, so a second one goes back to it too.
    ensures back_twice { live_names (list_of back_twice) ≡ s_name ∷ [] }
    ensures back_twice_sent { sent_by back_twice ≡ on_c (codes "3") ∷ [] }
    // A repeat is dropped also where the first one stands outside the savepoint.
    ensures repeat_across { live_changes (list_of repeat_across) ≡ Noted (on_c (codes "a")) ∷ Saved s_name ∷ Noted (on_c (codes "b")) ∷ [] }
    ensures repeat_across_sent { sent_by repeat_across ≡ on_c (codes "a") ∷ on_c (codes "b") ∷ [] }
{}

/// What commands come to, one after another.
pub fn outcomes_one_after_another()
    // A failed block answers with errors until COMMIT rolls it back.
    ensures failed_block { outcomes_of failed_block_commands ≡ failed_block_outcomes }
    ensures failed_block_shown { joined (flat_map outcome_lines (outcomes_of failed_block_commands)) ≡ failed_block_text }
    // ROLLBACK TO a live savepoint goes on in a failed block, until that savepoint is released.
    ensures back_in_a_failed_block { outcomes_of back_in_block_commands ≡ back_in_block_outcomes }
    // Outside a block there are no savepoints to speak of.
    ensures savepoints_need_a_block { joined (flat_map outcome_lines (outcomes_of outside_commands)) ≡ outside_text }
{}

ghost use Rattle.std.specs.Prelude.{◌≡◌, [], ◌∷◌, map};
ghost use Rattle.pgn_answers.specs.declared.block_state.BlockState.TheVariants.{Idle, InBlock, Failed};
ghost use Rattle.pgn_answers.specs.Answers.{next_state, ending_tag};
ghost use Rattle.pgn_examples.specs.Answers.{answer_table, answered, each_outcome, their_tags};

/// What commands are answered, and what their outcomes come to.
pub fn answers_and_outcomes()
    // Each command has in each state the answer that the table gives.
    ensures table_of_answers { map (λ row. answered row.command) answer_table ≡ answer_table }
    // The state after an outcome of each kind, from each state.
    ensures state_after_idle { map (next_state Idle) each_outcome ≡ Idle ∷ InBlock ∷ Failed ∷ Idle ∷ Idle ∷ Idle ∷ [] }
    ensures state_after_in_block { map (next_state InBlock) each_outcome ≡ Idle ∷ InBlock ∷ Failed ∷ InBlock ∷ InBlock ∷ InBlock ∷ [] }
    ensures state_after_failed { map (next_state Failed) each_outcome ≡ Idle ∷ InBlock ∷ Failed ∷ Failed ∷ Failed ∷ Failed ∷ [] }
    // The tag that ends an outcome of each kind, where one does.
    ensures tags_of_outcomes { map ending_tag each_outcome ≡ their_tags }
{}

ghost use Rattle.std.specs.Prelude.{◌≡◌, [], ◌∷◌};
ghost use Rattle.pgn_model.specs.Walk.{default_settings};
ghost use Rattle.pgn_model.specs.Legal.{Legal};
ghost use Rattle.pgn_model.specs.Text.{text};
ghost use Rattle.pgn_examples.specs.Blocks.{failed_block_scenario, failed_block_trace, failed_block_text, left_scenario, left_journal, left_trace, left_text, quit_scenario, quit_trace, quit_text};

/// Whole runs with transaction blocks, and their texts.
pub fn runs_with_blocks()
    // A block fails at the first error. Its commands are ignored, a line that is no command is still told so, and its COMMIT rolls it
    // back, so that nothing is sent. A further COMMIT warns that no transaction is in progress.
    ensures failed_block { Legal failed_block_scenario default_settings [] (failed_block_trace ∷ []) }
    ensures failed_block_shown { text failed_block_scenario [] (failed_block_trace ∷ []) ≡ failed_block_text }
    // A session that listens and stops listening in one block becomes a listener at the commit, publishes its notification, and leaves
    // without having received it.
    ensures registered_then_left { Legal left_scenario default_settings left_journal (left_trace ∷ []) }
    ensures registered_then_left_shown { text left_scenario left_journal (left_trace ∷ []) ≡ left_text }
    // Where nothing was sent no page of the queue is in use. A listener that quits in a block leaves, and nothing of the block is sent.
    ensures usage_and_quit { Legal quit_scenario default_settings [] (quit_trace ∷ []) }
    ensures usage_and_quit_shown { text quit_scenario [] (quit_trace ∷ []) ≡ quit_text }
{}

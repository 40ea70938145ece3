ghost use Rattle.std.specs.Prelude.{◌≡◌, [], ◌∷◌};
ghost use Rattle.pgn_model.specs.Walk.{default_settings};
ghost use Rattle.pgn_model.specs.Legal.{Legal};
ghost use Rattle.pgn_model.specs.Text.{text};
ghost use Rattle.pgn_examples.specs.Flags.{databases_scenario, databases_journal, databases_listener_trace, databases_sender_trace, databases_text, held_scenario, held_journal, held_listener_trace, held_sender_trace, held_text, filter_scenario, filter_journal, filter_listener_trace, filter_sender_trace, filter_text, ten_looks, timeout_scenario, timeout_trace, timeout_text, crossing_scenario, crossing_journal, crossing_a_trace, crossing_b_trace, crossing_text};

/// Whole runs of sessions that wait for flags, and their texts.
pub fn runs_with_flags()
    // A listener reads over the notification of another database, and receives nothing.
    ensures databases { Legal databases_scenario default_settings databases_journal (databases_listener_trace ∷ databases_sender_trace ∷ []) }
    ensures databases_shown { text databases_scenario databases_journal (databases_listener_trace ∷ databases_sender_trace ∷ []) ≡ databases_text }
    // A listener with an open block receives a notification that was sent meanwhile once the block has ended.
    ensures held_back_by_block { Legal held_scenario default_settings held_journal (held_listener_trace ∷ held_sender_trace ∷ []) }
    ensures held_back_by_block_shown { text held_scenario held_journal (held_listener_trace ∷ held_sender_trace ∷ []) ≡ held_text }
    // What a listener receives depends on the channels that it listens to at the read, and not when the notification was sent. One that
    // listens to a further channel does not become a listener again.
    ensures filter_at_read { Legal filter_scenario default_settings filter_journal (filter_listener_trace ∷ filter_sender_trace ∷ []) }
    ensures filter_at_read_shown { text filter_scenario filter_journal (filter_listener_trace ∷ filter_sender_trace ∷ []) ≡ filter_text }
    // An await of a flag that nobody has raised gives up after as many looks as the patience is, and the script goes on.
    ensures time_out { Legal timeout_scenario ten_looks [] (timeout_trace ∷ []) }
    ensures time_out_shown { text timeout_scenario [] (timeout_trace ∷ []) ≡ timeout_text }
    // Two sessions that each await the other in turn: no order of whole sessions gives this output.
    ensures crossing_flags { Legal crossing_scenario default_settings crossing_journal (crossing_a_trace ∷ crossing_b_trace ∷ []) }
    ensures crossing_flags_shown { text crossing_scenario crossing_journal (crossing_a_trace ∷ crossing_b_trace ∷ []) ≡ crossing_text }
{}

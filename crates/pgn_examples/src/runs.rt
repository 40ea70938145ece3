ghost use Rattle.std.specs.Prelude.{◌≡◌, [], ◌∷◌};
ghost use Rattle.pgn_model.specs.Walk.{default_settings};
ghost use Rattle.pgn_model.specs.Legal.{Legal};
ghost use Rattle.pgn_model.specs.Text.{text};
ghost use Rattle.pgn_examples.specs.Runs.{self_notify_scenario, self_notify_journal, self_notify_trace, self_notify_text, empty_scenario, empty_trace, empty_text};

/// Whole runs of one session, and their texts.
pub fn runs_of_one()
    // A session that listens on a channel and notifies it receives its own notification.
    ensures self_notify { Legal self_notify_scenario default_settings self_notify_journal (self_notify_trace ∷ []) }
    ensures self_notify_shown { text self_notify_scenario self_notify_journal (self_notify_trace ∷ []) ≡ self_notify_text }
    // A section without a line has nothing to show.
    ensures empty_section { Legal empty_scenario default_settings [] (empty_trace ∷ []) }
    ensures empty_section_shown { text empty_scenario [] (empty_trace ∷ []) ≡ empty_text }
{}

ghost use Rattle.std.specs.Prelude.{◌≡◌, ◌≢◌, [], ◌∷◌};
ghost use Rattle.pgn_language.specs.Inputs.{IsSound};
ghost use Rattle.pgn_model.specs.Walk.{Settings};
ghost use Rattle.pgn_model.specs.Legal.{Legal};
ghost use Rattle.pgn_model.specs.Text.{text};
ghost use Rattle.pgn_unique.specs.Examples.{side_by_side, one_sent, receives, misses, sends, received_text, missed_text, changed_text, cut_in_a_trace, cut_before_the_end, IsTextOfNone};

/// Two runs of one scenario: in the one a session listens early enough for another's notification, and receives it, and in the
/// other too late. What is sent is the same. They have two texts.
pub fn two_runs()
    ensures sound { IsSound side_by_side }
    ensures received { (settings : Settings) → Legal side_by_side settings one_sent (receives ∷ sends ∷ []) }
    ensures missed { (settings : Settings) → Legal side_by_side settings one_sent (misses ∷ sends ∷ []) }
    ensures received_shown { text side_by_side one_sent (receives ∷ sends ∷ []) ≡ received_text }
    ensures missed_shown { text side_by_side one_sent (misses ∷ sends ∷ []) ≡ missed_text }
    ensures two_texts { received_text ≢ missed_text }
{}

/// With another payload in what was received the text is that of no legal run of the scenario.
pub fn one_item_changed()
    ensures { (settings : Settings) → IsTextOfNone side_by_side settings changed_text }
{}

/// Nor is a text that is cut after a line: in a trace, or before its last line.
pub fn cut_after_a_line()
    ensures in_a_trace { (settings : Settings) → IsTextOfNone side_by_side settings cut_in_a_trace }
    ensures before_the_end { (settings : Settings) → IsTextOfNone side_by_side settings cut_before_the_end }
{}

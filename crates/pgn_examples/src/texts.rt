ghost use Rattle.std.specs.Prelude.{◌≡◌, [], ◌∷◌, ◌++◌, codes, map};
ghost use Rattle.std.specs.List.{flat_map};
ghost use Rattle.pgn_model.specs.Text.{joined, entry_lines, journal_lines, trace_lines, text};
ghost use Rattle.pgn_answers.specs.Refusals.{tag_text, warning_lines, refusal_text};
ghost use Rattle.pgn_examples.specs.Texts.{each_tag, tag_lines, each_warning, lines_of_warnings, each_refusal, lines_of_refusals, quoted_tx, unqueued_tx, shown_journal, shown_journal_text, first_section, first_trace, first_text, second_section, second_trace, second_text, shown_scenario};

/// What the output says.
pub fn texts()
    // The words of each tag.
    ensures tags { map tag_text each_tag ≡ tag_lines }
    // The line of each warning.
    ensures warnings { flat_map warning_lines each_warning ≡ lines_of_warnings }
    // The line of each refusal.
    ensures refusals { map (λ refusal. codes "ERROR: " ++ refusal_text refusal) each_refusal ≡ lines_of_refusals }
    // The entries of a journal: a quote between its own quotes stands twice, and the other one is plain.
    ensures committed_entry { entry_lines 21 quoted_tx ≡ codes "xid 21 session 2 commit 2" ∷ codes "  \"a\"\"b'c\", 'it''s \"x\"'" ∷ codes "  \"C d\", ''''" ∷ [] }
    ensures aborted_entry { entry_lines 5 unqueued_tx ≡ codes "xid 5 session 2 abort 0 of 1" ∷ codes "  \"c\", ''" ∷ [] }
    ensures journal { joined (journal_lines shown_journal) ≡ shown_journal_text }
    // Sections with their traces, and a whole output.
    ensures first_section { joined (trace_lines first_section first_trace) ≡ first_text }
    ensures second_section { joined (trace_lines second_section second_trace) ≡ second_text }
    ensures whole_output { text shown_scenario shown_journal (first_trace ∷ second_trace ∷ []) ≡ shown_journal_text ++ first_text ++ second_text }
{}

ghost use Rattle.std.specs.Prelude.{◌≡◌, [], ◌∷◌};
ghost use Rattle.pgn_model.specs.Legal.{Legal};
ghost use Rattle.pgn_model.specs.Text.{text};
ghost use Rattle.pgn_examples.specs.FullQueue.{two_pages, full_scenario, full_run_journal, full_listener_trace, full_sender_trace, full_text, larger_scenario, larger_run_journal, larger_trace, larger_text};

/// Whole runs that meet a full queue, and their texts.
pub fn runs_with_full_queue()
    // A listener whose block stays open keeps two long notifications in a queue of two pages. The next two transactions meet a full
    // queue, held by the listener, and once it has read a last one is committed. The listener receives what was committed.
    ensures full { Legal full_scenario two_pages full_run_journal (full_listener_trace ∷ full_sender_trace ∷ []) }
    ensures full_shown { text full_scenario full_run_journal (full_listener_trace ∷ full_sender_trace ∷ []) ≡ full_text }
    // A transaction larger than the queue is aborted after two of its notifications, though no session listens. The next transaction is
    // committed.
    ensures larger_than_queue { Legal larger_scenario two_pages larger_run_journal (larger_trace ∷ []) }
    ensures larger_than_queue_shown { text larger_scenario larger_run_journal (larger_trace ∷ []) ≡ larger_text }
{}

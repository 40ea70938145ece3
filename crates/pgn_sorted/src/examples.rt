ghost use Rattle.std.specs.Prelude.{◌≡◌, ◌≢◌, map};
ghost use Rattle.pgn_live.specs.Lives.{AreWhole, log_of_trace};
ghost use Rattle.pgn_run.specs.Live.{live_text};
ghost use Rattle.pgn_unique.specs.Examples.{side_by_side, one_sent, received_text};
ghost use Rattle.pgn_sorted.specs.Sorting.{sorted};
ghost use Rattle.pgn_sorted.specs.Examples.{both_traces, read_last, sender_first, read_last_text, sender_first_text, exchanged_text, misnamed_text};

/// One run, whose lines came in two orders: sorted, either output is the text of the run. (That the run is legal says `two_runs` of
/// `pgn_unique`.)
pub fn two_orders()
    ensures read_last_came { AreWhole (map log_of_trace both_traces) read_last }
    ensures sender_first_came { AreWhole (map log_of_trace both_traces) sender_first }
    ensures read_last_shown { live_text side_by_side read_last one_sent both_traces ≡ read_last_text }
    ensures sender_first_shown { live_text side_by_side sender_first one_sent both_traces ≡ sender_first_text }
    ensures read_last_sorted { sorted read_last_text ≡ received_text }
    ensures sender_first_sorted { sorted sender_first_text ≡ received_text }
{}

/// With two lines of one session exchanged, or a line behind another session's number, it is another text.
pub fn another_text()
    ensures exchanged { sorted exchanged_text ≢ received_text }
    ensures misnamed { sorted misnamed_text ≢ received_text }
{}

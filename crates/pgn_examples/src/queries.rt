ghost use Rattle.std.specs.Prelude.{◌≡◌, [], ◌∷◌, ◌++◌, None, Option, Some, List};
ghost use Rattle.pgn_base.specs.declared.limits.TheConstants.{NOTE_LINES_MAX};
ghost use Rattle.pgn_base.specs.declared.command.Command.TheVariants as command;
ghost use Rattle.pgn_language.specs.declared.scenario.ScriptLine.{ScriptLine};
ghost use Rattle.pgn_queries.specs.declared.wire_fault.WireFault.{WireFault};
ghost use Rattle.pgn_queries.specs.declared.wire_fault.WireFault.TheVariants.{BadLength, BadText, BadType, TooMany, Truncated};
ghost use Rattle.pgn_queries.specs.Queries.{AreTooMany, QueriesAre, queries};
ghost use Rattle.pgn_queries.specs.Script.{wire_scenario};
ghost use Rattle.pgn_examples.specs.Queries.{asks_lf, asks_listen, asks_no_utf8, asks_nothing, asks_notify, asks_two_ends, asks_unended, asks_section, listen_line, notify_first, notify_line, place_after, query_line, terminates};

/// Conversations, and what they read as.
pub fn conversations()
    // Two queries and a Terminate; the same without it; and with bytes behind it.
    ensures two_queries { queries NOTE_LINES_MAX (asks_listen ++ asks_notify ++ terminates) (listen_line ∷ notify_line ∷ []) None }
    ensures ended_by_the_source { queries NOTE_LINES_MAX (asks_listen ++ asks_notify) (listen_line ∷ notify_line ∷ []) None }
    ensures behind_a_terminate { queries NOTE_LINES_MAX (terminates ++ asks_listen) [] None }
    ensures no_byte { queries NOTE_LINES_MAX [] [] None }
    // A query without a text is an empty one; one of an LF is bad at it, and its line is empty.
    ensures no_text { queries NOTE_LINES_MAX asks_nothing (query_line 1 [] command.Empty ∷ []) None }
    ensures an_lf { queries NOTE_LINES_MAX asks_lf (query_line 1 [] (command.Bad 0) ∷ []) None }
{}

/// The scenario of the first two queries: a `\quit` stands behind them, and one of them notifies.
pub fn scenario()
    ensures met { wire_scenario (listen_line ∷ notify_line ∷ []) ≡ record { sections = asks_section ∷ []; flags = [] } }
    ensures no_quit { (wire_scenario (listen_line ∷ [])).sections ≡ record asks_section { lines = listen_line ∷ [] } ∷ [] → ⊥ }
{}

/// Bytes that are refused, each at the message with the fault, and the queries before it.
pub fn faults()
    ensures type_behind { queries NOTE_LINES_MAX (asks_listen ++ asks_nothing ++ 80 ∷ []) (listen_line ∷ query_line 2 [] command.Empty ∷ []) (Some (BadType 20)) }
    ensures length_of_a_query { queries NOTE_LINES_MAX (81 ∷ 0 ∷ 0 ∷ 0 ∷ 4 ∷ []) [] (Some (BadLength 0)) }
    ensures greatest_length { queries NOTE_LINES_MAX (81 ∷ 0 ∷ 1 ∷ 0 ∷ 5 ∷ []) [] (Some (Truncated 0)) }
    ensures greater_length { queries NOTE_LINES_MAX (81 ∷ 0 ∷ 1 ∷ 0 ∷ 6 ∷ []) [] (Some (BadLength 0)) }
    ensures length_of_a_terminate { queries NOTE_LINES_MAX (asks_nothing ++ 88 ∷ 0 ∷ 0 ∷ 0 ∷ 5 ∷ []) (query_line 1 [] command.Empty ∷ []) (Some (BadLength 6)) }
    ensures cut { queries NOTE_LINES_MAX (asks_nothing ++ 81 ∷ 0 ∷ 0 ∷ 0 ∷ 6 ∷ 59 ∷ []) (query_line 1 [] command.Empty ∷ []) (Some (Truncated 6)) }
    ensures no_zero_byte { queries NOTE_LINES_MAX asks_unended [] (Some (BadText 0)) }
    ensures two_zero_bytes { queries NOTE_LINES_MAX asks_two_ends [] (Some (BadText 0)) }
    ensures no_utf8 { queries NOTE_LINES_MAX asks_no_utf8 [] (Some (BadText 0)) }
{}

/// Clients of which few queries may notify.
pub fn limits()
    // Where one may, the second that does is at fault; a query that does not notify is not counted.
    ensures second { queries 1 (asks_notify ++ asks_notify) (notify_first ∷ []) (Some (TooMany 19)) }
    ensures other { queries 1 (asks_listen ++ asks_notify) (listen_line ∷ notify_line ∷ []) None }
    // Where two may, it is none; where none may, the first is.
    ensures two { queries 2 (asks_notify ++ asks_notify) (notify_first ∷ notify_line ∷ []) None }
    ensures none { queries 0 asks_notify [] (Some (TooMany 0)) }
    // One too many is not let through, nor the last that may be asked refused.
    ensures one_too_many { queries 1 (asks_notify ++ asks_notify) (notify_first ∷ notify_line ∷ []) None → ⊥ }
    ensures one_too_few { (lines : List ScriptLine) → queries 2 (asks_notify ++ asks_notify) lines (Some (TooMany 19)) → ⊥ }
{}

/// Places with which there are too many queries, or too many that notify, and places with which there are not.
pub fn too_many()
    ensures notes { AreTooMany (place_after 2 2 1) }
    ensures notes_within { AreTooMany (place_after 2 1 1) → ⊥ }
    ensures queries { AreTooMany (place_after 4294967295 0 1) }
    ensures queries_within { AreTooMany (place_after 4294967294 1 1) → ⊥ }
    // The query that is one too many is at fault though it does not notify, and the one before it is not.
    ensures greatest { QueriesAre (place_after 4294967293 0 0) asks_nothing (query_line 4294967294 [] command.Empty ∷ []) None }
    ensures one_query_more { QueriesAre (place_after 4294967294 0 0) asks_nothing [] (Some (TooMany 0)) }
    ensures let_through { (lines : List ScriptLine) → QueriesAre (place_after 4294967294 0 0) asks_nothing lines None → ⊥ }
{}

/// Readings that these bytes have not.
pub fn refused()
    // A query may not be left out, nor the fault that ends the bytes, whatever is read before it.
    ensures a_query_less { queries NOTE_LINES_MAX (asks_listen ++ asks_notify ++ terminates) (listen_line ∷ []) None → ⊥ }
    ensures as_the_end { (lines : List ScriptLine) → queries NOTE_LINES_MAX asks_two_ends lines None → ⊥ }
    // What stands behind a Terminate is not read.
    ensures past_a_terminate { (line : ScriptLine) (lines : List ScriptLine) (fault : Option WireFault) → queries NOTE_LINES_MAX (terminates ++ asks_listen) (line ∷ lines) fault → ⊥ }
    // A fault stands at its own message.
    ensures at_the_start { (lines : List ScriptLine) → queries NOTE_LINES_MAX (asks_listen ++ asks_nothing ++ 80 ∷ []) lines (Some (BadType 0)) → ⊥ }
    // A cut message is no bad one.
    ensures bad_where_it_is_cut { (lines : List ScriptLine) → queries NOTE_LINES_MAX (asks_nothing ++ 81 ∷ 0 ∷ 0 ∷ 0 ∷ 6 ∷ 59 ∷ []) lines (Some (BadText 6)) → ⊥ }
    // A text with an LF is no line.
    ensures an_lf_as_a_text { (lines : List ScriptLine) (fault : Option WireFault) → queries NOTE_LINES_MAX asks_lf (query_line 1 (10 ∷ []) (command.Bad 0) ∷ lines) fault → ⊥ }
{}

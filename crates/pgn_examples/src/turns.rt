ghost use Rattle.std.specs.Prelude.{◌≡◌, [], ◌∷◌, ◌++◌, map, List, None, Some};
ghost use Rattle.pgn_base.specs.declared.answers.Tag.TheVariants as tag;
ghost use Rattle.pgn_base.specs.declared.command.Command.TheVariants as command;
ghost use Rattle.pgn_language.specs.Grammar.{ReadsAs};
ghost use Rattle.pgn_journal.specs.declared.tx.Tx.{Tx};
ghost use Rattle.pgn_model.specs.declared.item.Item.TheVariants as item;
ghost use Rattle.pgn_model.specs.Trace.{IsLawful};
ghost use Rattle.pgn_model.specs.Walk.{default_settings};
ghost use Rattle.pgn_answers.specs.declared.block_state.BlockState.TheVariants.{Failed};
ghost use Rattle.pgn_base.specs.declared.answers.Refusal.TheVariants as refusal;
ghost use Rattle.pgn_requests.specs.declared.settled.Settled.TheVariants.{One, Process, Version};
ghost use Rattle.pgn_requests.specs.Settings.{fresh};
ghost use Rattle.pgn_messages.specs.declared.asked.Ask.TheVariants.{Discard, End, Query, Settle};
ghost use Rattle.pgn_messages.specs.declared.asked.Parting.TheVariants.{Extended, Plain, Refused, Spent};
ghost use Rattle.pgn_messages.specs.Asks.{GoOnFrom, discard_line, line_of, rollback_line, script_of, seat_quit, unlisten_line};
ghost use Rattle.pgn_messages.specs.Served.{settled_answer};
ghost use Rattle.pgn_messages.specs.Turns.{Answers, Discards, Hears, IsPlain, Leaves, MayBeTold, Settles, signs_in, telling_of};
ghost use Rattle.pgn_examples.specs.Turns.{begin, begin_bytes, between_items, call, call_items, early_items, idle_items, in_block_items, left_asks, left_items, listen, listen_bytes, notify, other_bytes, own_bytes, own_items, refused_bytes, rowless_bytes, seat_section, second_notify, sent_by, spent_bytes, two_clients};
ghost use Rattle.pgn_examples.specs.Conversations.{aborted_bytes, begin_first, call_bytes, colour, colour_bytes, colour_items, discarded_bytes, empty_call, empty_call_bytes, empty_call_items, endless_bytes, extended_bytes, failed_items, failed_listen, failed_listen_items, failing_asks, failing_items, idle_bytes, in_block_bytes, listened_items, long_listen, long_notice, measure, measure_bytes, measure_items, name_bytes, named_before, one_bytes, process_bytes, quoted_listen, quoted_notice, reset_bytes, resets_name, same_status_bytes, set_bytes, sets_digits, sets_name, sets_nothing, show_bytes, short_listen, shows_name, unreported_bytes, version_bytes, wide_listen, wide_notice};

/// Traces of seats, and what their clients are told of them, byte by byte.
pub fn told()
    // A read behind a query stands in its answer, and ReadyForQuery behind it.
    ensures within_an_answer { MayBeTold 1 (Query listen ∷ Query notify ∷ []) own_items (map Some (listen_bytes ++ own_bytes)) }
    // A delivery comes at once to a client that asks nothing.
    ensures at_once { MayBeTold 1 (Query listen ∷ []) idle_items (map Some (listen_bytes ++ other_bytes)) }
    // It comes between two answers.
    ensures between_lines { MayBeTold 1 (Query listen ∷ Query begin ∷ []) between_items (map Some (listen_bytes ++ other_bytes ++ begin_bytes)) }
    // A client that left is told nothing more, and nobody is told of the lines that set its seat back.
    ensures left { MayBeTold 1 left_asks left_items (map Some listen_bytes ++ None ∷ []) }
    // One that the server ends is told why.
    ensures refused { MayBeTold 1 (End 1 Refused ∷ []) early_items (map Some refused_bytes ++ None ∷ []) }
    ensures spent { MayBeTold 1 (End 1 Spent ∷ []) early_items (map Some spent_bytes ++ None ∷ []) }
{}

/// What clients are told of what is settled without the session, byte by byte.
pub fn served()
    ensures one { MayBeTold 1 (Settle One ∷ []) [] (map Some one_bytes) }
    ensures version { MayBeTold 1 (Settle Version ∷ []) [] (map Some version_bytes) }
    ensures process { MayBeTold 2 (Settle Process ∷ []) [] (map Some process_bytes) }
    // A setting that changes is reported, shown, and reported where it is as at the start again.
    ensures named { MayBeTold 1 (Settle sets_name ∷ Settle shows_name ∷ Settle resets_name ∷ []) [] (map Some (set_bytes ++ show_bytes ++ reset_bytes)) }
    // Some are not reported, and none that keeps its value.
    ensures unreported { MayBeTold 1 (Settle sets_digits ∷ []) [] (map Some unreported_bytes) }
    ensures same_value { MayBeTold 1 (Settle sets_nothing ∷ []) [] (map Some unreported_bytes) }
    // In a failed block all is refused.
    ensures one_in_failed_block { MayBeTold 1 (Query begin_first ∷ Discard 2 ∷ Settle One ∷ []) failed_items (map Some (begin_bytes ++ in_block_bytes ++ aborted_bytes)) }
{}

/// What clients are told of `DISCARD ALL`.
pub fn discarding()
    // Its settings are as at the start again, which is reported.
    ensures outside { MayBeTold 1 (Settle sets_name ∷ Discard 1 ∷ []) (item.Line 1 ∷ item.Refuse (refusal.Syntax 0) ∷ item.Line 2 ∷ item.Reply tag.Unlisten None ∷ []) (map Some (set_bytes ++ discarded_bytes ++ name_bytes ++ idle_bytes)) }
    // What it hears meanwhile stands in the answer.
    ensures meanwhile { MayBeTold 1 (Query listen ∷ Discard 2 ∷ []) (item.Line 1 ∷ item.Enlist 3 3 ∷ item.Reply tag.Listen None ∷ item.Line 2 ∷ item.Refuse (refusal.Syntax 0) ∷ item.Read 3 4 (sent_by 1002 ∷ []) ∷ item.Line 3 ∷ item.Leave ∷ item.Reply tag.Unlisten None ∷ []) (map Some (listen_bytes ++ discarded_bytes ++ other_bytes ++ idle_bytes)) }
    // In a block it is refused, and fails the block; in a failed one it is refused as all is.
    ensures in_block { MayBeTold 1 failing_asks failing_items (map Some (begin_bytes ++ in_block_bytes ++ aborted_bytes)) }
{}

/// Answers to queries in a service's own words, and its farewell.
pub fn answered()
    // A call of pg_notify has a column of void, also where it is refused.
    ensures called { MayBeTold 1 (Query call ∷ []) call_items (map Some call_bytes) }
    ensures called_without_channel { MayBeTold 1 (Query empty_call ∷ []) empty_call_items (map Some empty_call_bytes) }
    // How much of the queue is in use is a fraction.
    ensures measured { MayBeTold 1 (Query measure ∷ []) measure_items (map Some measure_bytes) }
    // A refusal that is no syntax error.
    ensures complained { MayBeTold 1 (Query colour ∷ []) colour_items (map Some colour_bytes) }
    ensures extended { MayBeTold 1 (End 1 Extended ∷ []) early_items (map Some extended_bytes ++ None ∷ []) }
{}

/// Names that are cut, and one that is not.
pub fn cut_names()
    ensures long { MayBeTold 1 (Query long_listen ∷ []) listened_items (map Some (long_notice ++ listen_bytes)) }
    ensures short { MayBeTold 1 (Query short_listen ∷ []) listened_items (map Some listen_bytes) }
    // A quoted name is told as it is, and a whole character is cut.
    ensures quoted { MayBeTold 1 (Query quoted_listen ∷ []) listened_items (map Some (quoted_notice ++ listen_bytes)) }
    ensures wide { MayBeTold 1 (Query wide_listen ∷ []) listened_items (map Some (wide_notice ++ listen_bytes)) }
    // Before the refusal of a failed block.
    ensures in_failed_block { MayBeTold 1 (Query begin_first ∷ Discard 2 ∷ Query failed_listen ∷ []) failed_listen_items (map Some (begin_bytes ++ in_block_bytes ++ long_notice ++ aborted_bytes)) }
    // Not without a word, and not where nothing is cut.
    ensures no_notice { MayBeTold 1 (Query long_listen ∷ []) listened_items (map Some listen_bytes) → ⊥ }
    ensures needless { MayBeTold 1 (Query short_listen ∷ []) listened_items (map Some (long_notice ++ listen_bytes)) → ⊥ }
{}

/// What they may not be told of what is settled.
pub fn not_served()
    // A setting that did not change.
    ensures same_status { MayBeTold 1 (Settle sets_nothing ∷ []) [] (map Some same_status_bytes) → ⊥ }
    // One that did, without a word of it.
    ensures no_status { MayBeTold 1 (Settle sets_name ∷ []) [] (map Some unreported_bytes) → ⊥ }
    // An answer without ReadyForQuery.
    ensures no_ready { MayBeTold 1 (Settle One ∷ []) [] (map Some endless_bytes) → ⊥ }
    // In a failed block, that a setting was set.
    ensures set_in_failed_block { settled_answer 1 sets_name fresh Failed ≡ set_bytes → ⊥ }
    // What another client has set, which is gone.
    ensures name_of_another { signs_in 1 (telling_of named_before) (Settles shows_name) ≡ map Some show_bytes → ⊥ }
{}

/// What they may not be told, however the trace is cut into turns.
pub fn not_told()
    // ReadyForQuery before the last item of the line.
    ensures ready_early { MayBeTold 1 (Query listen ∷ []) (item.Line 1 ∷ item.Enlist 3 3 ∷ item.Reply tag.Listen None ∷ []) (map Some (90 ∷ 0 ∷ 0 ∷ 0 ∷ 5 ∷ 73 ∷ 67 ∷ 0 ∷ 0 ∷ 0 ∷ 11 ∷ 76 ∷ 73 ∷ 83 ∷ 84 ∷ 69 ∷ 78 ∷ 0 ∷ [])) → ⊥ }
    // A read twice, or not at all.
    ensures read_twice { MayBeTold 1 (Query listen ∷ []) idle_items (map Some (listen_bytes ++ other_bytes ++ other_bytes)) → ⊥ }
    ensures read_left_out { MayBeTold 1 (Query listen ∷ []) idle_items (map Some listen_bytes) → ⊥ }
    // The answer of another command.
    ensures other_answer { MayBeTold 1 (Query call ∷ []) call_items (map Some rowless_bytes) → ⊥ }
    // Nothing, where the server ends the conversation.
    ensures no_farewell { MayBeTold 1 (End 1 Refused ∷ []) early_items (None ∷ []) → ⊥ }
{}

/// Turns and traces that are refused.
pub fn refused()
    // A read in an open block, while a line is to come.
    ensures read_in_block { (journal : List Tx) → IsLawful (record { section = seat_section (Query listen ∷ Query begin ∷ []); settings = default_settings }) journal in_block_items → ⊥ }
    // An answer in which another line begins.
    ensures two_lines { IsPlain (Answers listen (item.Reply tag.Listen None ∷ item.Line 2 ∷ [])) → ⊥ }
    // So in the answers to the lines that set a seat back.
    ensures three_lines { IsPlain (Leaves Plain 1 (item.Line 2 ∷ []) []) → ⊥ }
    ensures four_lines { IsPlain (Leaves Plain 1 [] (item.Line 3 ∷ [])) → ⊥ }
    // And in those of `DISCARD ALL`.
    ensures line_in_discard { IsPlain (Discards 1 (item.Line 2 ∷ []) []) → ⊥ }
    // A reply that was not asked for.
    ensures reply_between { IsPlain (Hears (item.Reply tag.Listen None ∷ [])) → ⊥ }
{}

/// The script of two clients, one after another.
pub fn scripts()
    ensures met { script_of two_clients ≡ line_of listen ∷ rollback_line 2 ∷ unlisten_line 3 ∷ line_of second_notify ∷ seat_quit ∷ [] }
    ensures numbered { GoOnFrom 1 two_clients }
    // The texts of the two lines read as what these do.
    ensures reads_rollback { ReadsAs (rollback_line 1).text command.Rollback }
    ensures reads_unlisten { ReadsAs (unlisten_line 1).text command.UnlistenAll }
    // The first line of `DISCARD ALL` reads as no command, and the second stands behind it.
    ensures reads_discard { ReadsAs (discard_line 1).text (command.Bad 0) }
    ensures discards { script_of (Discard 1 ∷ []) ≡ discard_line 1 ∷ unlisten_line 2 ∷ seat_quit ∷ [] }
    // What is settled has no line.
    ensures settles { script_of (Settle One ∷ []) ≡ seat_quit ∷ [] }
    // The two lines are counted.
    ensures numbers_lost { GoOnFrom 1 (Query listen ∷ End 2 Plain ∷ Query (record second_notify { line = 3 }) ∷ []) → ⊥ }
    // An end has both of them, in a block or not.
    ensures no_unlisten { script_of (End 1 Plain ∷ []) ≡ rollback_line 1 ∷ seat_quit ∷ [] → ⊥ }
{}

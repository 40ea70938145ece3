ghost use Rattle.std.specs.Prelude.{[], ◌∷◌, Some, None, codes};
ghost use Rattle.pgn_base.specs.declared.answers.Tag.TheVariants as tag;
ghost use Rattle.pgn_base.specs.declared.answers.Refusal.TheVariants.{Aborted};
ghost use Rattle.pgn_journal.specs.declared.tx.Fate.TheVariants.{Committed};
ghost use Rattle.pgn_model.specs.declared.item.Item.TheVariants.{Line, Leave, Reply, Refuse, Channels, Used, Raise, Found, TimedOut};
ghost use Rattle.pgn_model.specs.Walk.{default_settings};
ghost use Rattle.pgn_model.specs.Trace.{TraceOk, Fresh};
ghost use Rattle.pgn_model.specs.Legal.{IsFullThere, Legal};
ghost use Rattle.pgn_examples.specs.Scripts.{finished};
ghost use Rattle.pgn_examples.specs.Runs.{self_notify_section};
ghost use Rattle.pgn_examples.specs.Blocks.{empty_note, failed_block_section, failed_block_scenario, failed_block_trace, left_section, left_scenario, left_journal, left_trace, quit_section, quit_trace};
ghost use Rattle.pgn_examples.specs.Flags.{databases_listener, databases_scenario, databases_journal, databases_listener_trace, databases_sender_trace, held_listener, held_scenario, held_journal, held_listener_trace, held_sender_trace, ten_looks, timeout_section, timeout_trace};
ghost use Rattle.pgn_examples.specs.FullQueue.{two_pages, full_sender, full_scenario, full_run_journal, full_listener_trace, full_sender_trace};
ghost use Rattle.pgn_examples.specs.RefusedRuns.{judged, with_item, with_more, without_item, stays_at, known_flag_section, known_flag_trace, held_read, full_item, three_pages, own_full_item, own_full_journal, own_full_trace, full_listen_section, full_listen_journal, full_listen_trace, usage_section, usage_at, usage_trace, channels_section, channels_trace};

/// Flags that are raised and found, and how an await ends.
pub fn refused_flags()
    // A flag is raised with what the session was told, and with no other number. A flag that a session has raised is found, with no
    // lower number than that, and does not time out. An await that times out takes as many looks as the patience is.
    ensures raised_with_another { TraceOk (judged held_listener default_settings) (with_item held_listener_trace 6 (Raise 4)) held_journal → ⊥ }
    ensures known_flag { TraceOk (judged known_flag_section ten_looks) known_flag_trace [] }
    ensures found_below { TraceOk (judged known_flag_section ten_looks) (with_item known_flag_trace 3 (Found 2)) [] → ⊥ }
    ensures known_times_out { TraceOk (judged known_flag_section ten_looks) (with_item known_flag_trace 3 (TimedOut 10)) [] → ⊥ }
    ensures other_looks { TraceOk (judged timeout_section ten_looks) (with_item timeout_trace 1 (TimedOut 9)) [] → ⊥ }
    // A flag is found only with a number with which some session has raised it. The session's own trace does not tell.
    ensures found_is_lawful { TraceOk (judged held_listener default_settings) (with_item held_listener_trace 8 (Found 3)) held_journal }
    ensures found_not_raised { Legal held_scenario default_settings held_journal (with_item held_listener_trace 8 (Found 3) ∷ held_sender_trace ∷ []) → ⊥ }
{}

/// What full queues and usages may show.
pub fn refused_queues()
    // Where a session meets a full queue the floor is not above its own mark, and it holds the floor only where that is its mark.
    ensures floor_is_lawful { TraceOk (judged self_notify_section two_pages) own_full_trace own_full_journal }
    ensures floor_above_mark { TraceOk (judged self_notify_section two_pages) (with_item own_full_trace 4 (own_full_item 4 None)) own_full_journal → ⊥ }
    ensures own_holder { TraceOk (judged full_sender two_pages) (with_item full_sender_trace 9 (full_item 3 (Some 2))) full_run_journal → ⊥ }
    // A holder has stood at the floor's mark. In the changed trace the floor is at 4, on the same page, so that the queue is as full as
    // before, but the listener never stood there.
    ensures as_full { IsFullThere two_pages full_run_journal (full_item 4 (Some 1)) }
    ensures holder_never_stood_there { Legal full_scenario two_pages full_run_journal (full_listener_trace ∷ with_item full_sender_trace 9 (full_item 4 (Some 1)) ∷ []) → ⊥ }
    // A queue is not full while a page is left. A floor below the transaction is held by a session.
    ensures page_left { Legal full_scenario three_pages full_run_journal (full_listener_trace ∷ full_sender_trace ∷ []) → ⊥ }
    ensures full_without_holder { Legal full_scenario two_pages full_run_journal (full_listener_trace ∷ with_item full_sender_trace 9 (full_item 3 None) ∷ []) → ⊥ }
    // The usage is not more pages than there are from the floor's on, of as many as the limit, and is not measured below what the
    // session was told. A floor below the number is held by a session.
    ensures usage_one_more { TraceOk (judged quit_section default_settings) (with_item quit_trace 4 (Used (record { at = 3; occupied = 1; limit = 256; floor_mark = 3; holder = None }))) [] → ⊥ }
    ensures usage_is_lawful { TraceOk (judged usage_section default_settings) usage_trace left_journal }
    ensures usage_below_told { TraceOk (judged usage_section default_settings) (with_item usage_trace 4 (usage_at 3)) left_journal → ⊥ }
    ensures usage_of_other_limit { TraceOk (judged usage_section default_settings) (with_item usage_trace 4 (Used (record { at = 4; occupied = 0; limit = 255; floor_mark = 4; holder = None }))) left_journal → ⊥ }
    ensures usage_without_holder { TraceOk (judged usage_section default_settings) (with_item usage_trace 4 (Used (record { at = 4; occupied = 0; limit = 256; floor_mark = 3; holder = None }))) left_journal → ⊥ }
{}

/// When a listener reads, when it leaves, and what it has read at the end.
pub fn refused_listeners()
    // A session does not read in an open block, also not while it awaits a flag there.
    ensures read_in_block { TraceOk (judged held_listener default_settings) (with_more (without_item held_listener_trace 11) 9 held_read) held_journal → ⊥ }
    ensures read_in_await { TraceOk (judged held_listener default_settings) (with_more (without_item held_listener_trace 11) 8 held_read) held_journal → ⊥ }
    // A listener whose set is empty after a commit leaves, once; and so does a listener that quits.
    ensures leave_is_missing { TraceOk (judged left_section default_settings) (stays_at 3 (without_item left_trace 11)) left_journal → ⊥ }
    ensures leaves_twice { TraceOk (judged left_section default_settings) (with_more left_trace 12 Leave) left_journal → ⊥ }
    ensures leave_is_missing_at_quit { TraceOk (judged quit_section default_settings) (stays_at 3 (without_item quit_trace 11)) [] → ⊥ }
    // A session that still listens at the end has read the whole journal, though nothing of it was due, so that no read was left out.
    ensures lawful_without_read { TraceOk (judged databases_listener default_settings) (stays_at 3 (without_item databases_listener_trace 11)) databases_journal }
    ensures fresh_without_read { Fresh (judged databases_listener default_settings) (stays_at 3 (without_item databases_listener_trace 11)) databases_journal }
    ensures not_read { Legal databases_scenario default_settings databases_journal (stays_at 3 (without_item databases_listener_trace 11) ∷ databases_sender_trace ∷ []) → ⊥ }
{}

/// What lines answer, and what the journal has of them.
pub fn refused_answers()
    // Where a transaction meets a full queue its LISTEN has no effect. The channels are shown in order of listening.
    ensures full_listen_is_lawful { TraceOk (judged full_listen_section default_settings) full_listen_trace full_listen_journal }
    ensures set_changed { TraceOk (judged full_listen_section default_settings) (with_item full_listen_trace 12 (Channels (codes "c" ∷ []))) full_listen_journal → ⊥ }
    ensures channels_in_order { TraceOk (judged channels_section default_settings) channels_trace [] }
    ensures channels_in_other_order { TraceOk (judged channels_section default_settings) (with_item channels_trace 6 (Channels (codes "b" ∷ codes "c" ∷ []))) [] → ⊥ }
    // A command that the table gives a tag is not refused: COMMIT in a failed block.
    ensures commit_of_failed { TraceOk (judged failed_block_section default_settings) (with_item failed_block_trace 9 (Refuse Aborted)) [] → ⊥ }
    // Each line of a script is shown once, in order, with the warning that the table gives.
    ensures line_left_out { TraceOk (judged failed_block_section default_settings) (without_item (without_item failed_block_trace 10) 10) [] → ⊥ }
    ensures line_repeated { TraceOk (judged failed_block_section default_settings) (with_more failed_block_trace 2 (Line 2)) [] → ⊥ }
    ensures no_warning { TraceOk (judged failed_block_section default_settings) (with_item failed_block_trace 11 (Reply tag.Commit None)) [] → ⊥ }
    // The journal has no transaction that its session does not show, none that is no session's, and no committed one of which not all
    // was queued.
    ensures transaction_not_shown { Legal failed_block_scenario default_settings (finished 1 1 (empty_note ∷ []) 1 Committed ∷ []) (failed_block_trace ∷ []) → ⊥ }
    ensures transaction_of_no_session { Legal failed_block_scenario default_settings (finished 2 1 (empty_note ∷ []) 1 Committed ∷ []) (failed_block_trace ∷ []) → ⊥ }
    ensures not_all_queued { Legal left_scenario default_settings (finished 1 1 (empty_note ∷ []) 0 Committed ∷ []) (left_trace ∷ []) → ⊥ }
{}

ghost use Rattle.std.specs.Prelude.{◌≡◌, List, [], ◌∷◌, ◌++◌, Some, None, codes};
ghost use Rattle.pgn_base.specs.declared.format.Format.TheVariants.{One, Two};
ghost use Rattle.pgn_base.specs.declared.answers.Tag.TheVariants as tag;
ghost use Rattle.pgn_base.specs.declared.answers.Needs.TheVariants as needs;
ghost use Rattle.pgn_base.specs.declared.answers.Which.TheVariants.{ChannelEmpty};
ghost use Rattle.pgn_base.specs.declared.answers.Refusal.TheVariants as refused;
ghost use Rattle.pgn_answers.specs.declared.block_state.BlockState.TheVariants.{Idle};
ghost use Rattle.pgn_language.specs.declared.scenario.Act.TheVariants.{Run, Signal, Await, Quit};
ghost use Rattle.pgn_journal.specs.declared.tx.Fate.TheVariants.{Committed, Aborted};
ghost use Rattle.pgn_model.specs.declared.item.Item.TheVariants.{Line, Enlist, Publish, QueueFull, Leave, Reply, Refuse, Channels, Used, Raise, Found, TimedOut, Read};
ghost use Rattle.pgn_base.specs.declared.queue_answers.Full.{Full};
ghost use Rattle.pgn_base.specs.declared.queue_answers.Usage.{Usage};
ghost use Rattle.pgn_base.specs.declared.command.Command.TheVariants as command;
ghost use Rattle.pgn_journal.specs.declared.tx.Tx.{Tx};
ghost use Rattle.pgn_model.specs.Walk.{State, default_settings, MeasuresQueue};
ghost use Rattle.pgn_model.specs.Trace.{state_after};
ghost use Rattle.pgn_model.specs.Legal.{IsFullThere, StoodAt, ends, Legal};
ghost use Rattle.pgn_journal.specs.QueueUse.{IsCutShort, NoPage, ShowsUsage};
ghost use Rattle.pgn_journal.specs.Packing.{place_at};
ghost use Rattle.pgn_model.specs.Text.{item_lines, brief};
ghost use Rattle.pgn_examples.specs.Scripts.{finished};
ghost use Rattle.pgn_examples.specs.Runs.{hello};
ghost use Rattle.pgn_examples.specs.Blocks.{left_journal};
ghost use Rattle.pgn_examples.specs.FullQueue.{two_pages, full_scenario, full_run_journal, full_listener_trace, full_sender_trace, larger_run_journal};
ghost use Rattle.pgn_examples.specs.RefusedRuns.{with_item, three_pages, usage_trace};
ghost use Rattle.pgn_examples.specs.Walks.{walker, its_terms, its_trace, settings_of_two, IsTraceOf, IsRefused, x_note, y_note, c_name, answered, enlisted, published, own_journal, other_journal, aborted_journal, notify_alone, listen_alone, listen_notify, listen_then};
ghost use Rattle.pgn_examples.specs.WholeRuns.{notify_signal, await_twice, other_flag_greater, other_flags_known, flags_in_failed, usage_signal, full_of, met_full, aborted_by, await_notify, second_aborted, of_40_bytes, listen_usage, none_in_use, used, full_run_usage, usage_scenario, channels_in_block, channels_in_block_front, listen_rolled_back, listens_twice, listens_twice_items, quit_alone, quit_in_block, quit_with_savepoint, each_refused, refused_with, bad_alone, begin_release, back_to_released, back_from_failed, back_from_failed_items, back_from_failed_journal, other_read, await_in_block, listener_failed, await_in_failed, listener_failed_front, leaves_at_commit, leaves_at_commit_front, listen_notify_block, other_and_own, counted_journal, counted_traces, counted_text};

/// Flags: with which numbers they are raised and found, and when an await times out.
pub fn flags()
    // A flag is raised with what the session was told, and not with less.
    ensures raised { IsTraceOf notify_signal own_journal (published 2 3 ++ Line 3 ∷ Raise 4 ∷ []) None }
    ensures raised_below_told { IsRefused notify_signal own_journal (published 2 3 ++ Line 3 ∷ Raise 3 ∷ []) None }
    // A flag that a session has found before is found with no lower number, and does not time out.
    ensures found_twice { IsTraceOf await_twice [] (Line 2 ∷ Found 3 ∷ Line 3 ∷ Found 4 ∷ []) None }
    ensures found_lower { IsRefused await_twice [] (Line 2 ∷ Found 4 ∷ Line 3 ∷ Found 3 ∷ []) None }
    ensures found_times_out { IsRefused await_twice [] (Line 2 ∷ Found 3 ∷ Line 3 ∷ TimedOut 10000000 ∷ []) None }
    // Of another flag it does not matter what the session raised or found it with. A number that is found does not lower what the
    // session was told.
    ensures other_found_lower { IsTraceOf other_flag_greater own_journal (published 2 3 ++ Line 3 ∷ Raise 4 ∷ Line 4 ∷ Found 3 ∷ Line 5 ∷ Raise 4 ∷ []) None }
    ensures told_stays { IsRefused other_flag_greater own_journal (published 2 3 ++ Line 3 ∷ Raise 4 ∷ Line 4 ∷ Found 3 ∷ Line 5 ∷ Raise 3 ∷ []) None }
    ensures other_times_out { IsTraceOf other_flags_known [] (Line 2 ∷ Raise 3 ∷ Line 3 ∷ Found 3 ∷ Line 4 ∷ TimedOut 10000000 ∷ []) None }
    ensures one_look_more { IsRefused other_flags_known [] (Line 2 ∷ Raise 3 ∷ Line 3 ∷ Found 3 ∷ Line 4 ∷ TimedOut 10000001 ∷ []) None }
    // A session is told of what its point and its reads have shown to be finished, and raises a flag with that number. With a lower
    // one, who finds the flag could commit what was read before, or send what a listener misses. A usage tells it nothing.
    ensures told_by_point { IsTraceOf (listen_then (Signal 0)) other_journal (enlisted 2 3 4 ++ Line 3 ∷ Raise 4 ∷ []) (Some 4) }
    ensures below_point { IsRefused (listen_then (Signal 0)) other_journal (enlisted 2 3 4 ++ Line 3 ∷ Raise 3 ∷ []) (Some 4) }
    ensures told_by_read { IsTraceOf (listen_then (Signal 0)) other_journal (enlisted 2 3 3 ++ other_read ∷ Line 3 ∷ Raise 4 ∷ []) (Some 4) }
    ensures below_read { IsRefused (listen_then (Signal 0)) other_journal (enlisted 2 3 3 ++ other_read ∷ Line 3 ∷ Raise 3 ∷ []) (Some 4) }
    ensures not_told_by_usage { IsTraceOf usage_signal other_journal (used 2 (none_in_use 4 4 None) ++ Line 3 ∷ Raise 3 ∷ []) None }
    // In a failed block too a flag is raised and found, and an await times out.
    ensures flags_in_a_failed_block { IsTraceOf flags_in_failed [] (answered 2 tag.Begin ++ (Line 3 ∷ Refuse (refused.Syntax 7) ∷ Line 4 ∷ Raise 3 ∷ Line 5 ∷ TimedOut 10000000 ∷ Line 6 ∷ Found 3 ∷ []) ++ answered 7 tag.Rollback) None }
{}

/// Transactions that meet a full queue.
pub fn full_queues_met()
    // A transaction that meets a full queue stands in the journal as its session sent it, aborted, with as many notifications queued,
    // after all that the session knows.
    ensures lawful { IsTraceOf notify_alone aborted_journal (met_full 2 (full_of 3 0 3 None)) None }
    ensures after_told { IsTraceOf await_notify second_aborted (Line 2 ∷ Found 4 ∷ met_full 3 (full_of 4 0 4 None)) None }
    ensures below_told { IsRefused await_notify aborted_journal (Line 2 ∷ Found 4 ∷ met_full 3 (full_of 3 0 3 None)) None }
    ensures below_the_mark { IsRefused listen_notify aborted_journal (enlisted 2 3 4 ++ met_full 3 (full_of 3 0 3 None)) (Some 4) }
    ensures another_count { IsRefused notify_alone aborted_journal (met_full 2 (full_of 3 1 3 None)) None }
    ensures another_session { IsRefused notify_alone (aborted_by 6 7 x_note ∷ []) (met_full 2 (full_of 3 0 3 None)) None }
    ensures another_database { IsRefused notify_alone (aborted_by 5 8 x_note ∷ []) (met_full 2 (full_of 3 0 3 None)) None }
    ensures of_other_notes { IsRefused notify_alone (aborted_by 5 7 y_note ∷ []) (met_full 2 (full_of 3 0 3 None)) None }
    ensures with_other_notes { IsRefused notify_alone (aborted_by 5 7 y_note ∷ []) (Line 2 ∷ QueueFull (full_of 3 0 3 None) (y_note ∷ []) ∷ Refuse refused.QueueFull ∷ []) None }
    ensures of_a_committed { IsRefused notify_alone own_journal (met_full 2 (full_of 3 1 3 None)) None }
    ensures own_floor_elsewhere { IsRefused listen_notify second_aborted (enlisted 2 3 4 ++ met_full 3 (full_of 4 0 3 (Some 5))) (Some 4) }
    ensures unasked { IsRefused listen_alone aborted_journal (Line 2 ∷ Enlist 3 3 ∷ QueueFull (full_of 3 0 3 None) [] ∷ Reply tag.Listen None ∷ []) (Some 3) }
    // Full queues and usages go by the format of the entries and by the limit that are set.
    ensures full_by_settings { (journal : List Tx) (full : Full) → IsFullThere settings_of_two journal (QueueFull full []) → NoPage Two 256 journal full }
    ensures usage_by_settings { (s : State) (usage : Usage) → MeasuresQueue (record (its_terms []) { settings = settings_of_two }) own_journal s usage → ShowsUsage Two 256 own_journal usage }
{}

/// When a queue is full, and what is shown of it.
pub fn full_queues_shown()
    // A full queue shows the pages of its floor and of its head, and how many notifications were queued. At the transaction itself no
    // session holds the floor.
    ensures holder_at_itself { IsFullThere two_pages larger_run_journal (QueueFull (full_of 3 2 3 (Some 2)) []) → ⊥ }
    ensures floor_page { IsFullThere two_pages full_run_journal (QueueFull (full_of 5 0 5 None) []) → ⊥ }
    ensures head_page { IsFullThere three_pages full_run_journal (QueueFull (record (full_of 5 0 3 (Some 1)) { head_page = 3 }) []) → ⊥ }
    ensures another_count { IsFullThere two_pages larger_run_journal (QueueFull (full_of 3 1 3 None) []) → ⊥ }
    // A transaction is cut short where a page ends or where its next notification does not fit, and not elsewhere.
    ensures cut_at_a_page { IsCutShort One (place_at 0 8172) 1 (finished 1 1 (hello ∷ y_note ∷ []) 1 Aborted) }
    ensures cut_though_it_fits { IsCutShort One (place_at 0 8172) 0 (finished 1 1 (hello ∷ []) 0 Aborted) → ⊥ }
    // The first notification takes 40 of the 72 bytes of the page, and the next one 20 of the 32 that are left.
    ensures cut_though_next_fits { IsCutShort One (place_at 0 8120) 1 (finished 1 1 (of_40_bytes ∷ hello ∷ []) 1 Aborted) → ⊥ }
    ensures cut_with_all_queued { IsCutShort One (place_at 0 8172) 1 (finished 1 1 (hello ∷ []) 1 Aborted) → ⊥ }
    ensures cut_and_committed { IsCutShort One (place_at 1 0) 0 (finished 1 1 (hello ∷ []) 0 Committed) → ⊥ }
{}

/// The usage of the queue, and where sessions stood.
pub fn usages()
    // A usage counts the pages from that of the floor up to that of the number, which is within the journal and not below the floor.
    ensures two { ShowsUsage One 2 full_run_journal (full_run_usage 8 2 3 (Some 1)) }
    ensures one { ShowsUsage One 2 full_run_journal (full_run_usage 5 1 3 (Some 1)) }
    ensures fewer { ShowsUsage One 2 full_run_journal (full_run_usage 8 1 3 (Some 1)) → ⊥ }
    ensures past_journal { ShowsUsage One 2 full_run_journal (full_run_usage 9 2 3 (Some 1)) → ⊥ }
    ensures floor_above { ShowsUsage One 2 full_run_journal (full_run_usage 3 0 4 (Some 1)) → ⊥ }
    ensures holder_at_itself { ShowsUsage One 2 full_run_journal (full_run_usage 8 0 8 (Some 1)) → ⊥ }
    // A listener measures the queue at no number below its mark; the floor is not above its mark, and it holds the floor only there.
    ensures below_the_mark { IsRefused listen_usage other_journal (enlisted 2 3 4 ++ used 3 (none_in_use 3 3 None)) (Some 4) }
    ensures floor_above_its_mark { IsRefused listen_usage other_journal (enlisted 2 3 3 ++ used 3 (none_in_use 4 4 None)) (Some 3) }
    ensures own_floor_elsewhere { IsRefused listen_usage other_journal (enlisted 2 3 4 ++ used 3 (none_in_use 4 3 (Some 5))) (Some 4) }
    ensures unasked { IsRefused listen_alone [] (enlisted 2 3 3 ++ Used (none_in_use 3 3 None) ∷ []) (Some 3) }
    // A holder that a usage names has stood at the floor's mark.
    ensures usage_with_a_stranger { Legal usage_scenario default_settings left_journal (with_item usage_trace 4 (Used (none_in_use 4 3 (Some 2))) ∷ []) → ⊥ }
    // Where a session of the run with a full queue stood: the listener at its point and at the ends of its reads, the sender nowhere.
    ensures stood_point { StoodAt (ends two_pages full_scenario.sections (full_listener_trace ∷ full_sender_trace ∷ [])) (1, 3) }
    ensures stood_read_end { StoodAt (ends two_pages full_scenario.sections (full_listener_trace ∷ full_sender_trace ∷ [])) (1, 8) }
    ensures stood_sender { StoodAt (ends two_pages full_scenario.sections (full_listener_trace ∷ full_sender_trace ∷ [])) (2, 3) → ⊥ }
    ensures stood_base_by_number { StoodAt (ends default_settings (walker listen_alone ∷ []) (its_trace (enlisted 2 3 4) (Some 4) ∷ [])) (5, 3) }
    ensures stood_not_by_database { StoodAt (ends default_settings (walker listen_alone ∷ []) (its_trace (enlisted 2 3 4) (Some 4) ∷ [])) (7, 3) → ⊥ }
    ensures stood_between { StoodAt (ends two_pages full_scenario.sections (full_listener_trace ∷ full_sender_trace ∷ [])) (1, 5) → ⊥ }
{}

/// Listeners: what they are shown of their channels, and when they come and leave.
pub fn listeners()
    // In a block the channels are shown as they were before it.
    ensures channels_as_before { IsTraceOf channels_in_block [] (channels_in_block_front ++ Line 5 ∷ Channels (c_name ∷ []) ∷ Reply (tag.Select 1) None ∷ []) (Some 3) }
    ensures channels_of_the_block { IsRefused channels_in_block [] (channels_in_block_front ++ Line 5 ∷ Channels (c_name ∷ codes "d" ∷ []) ∷ Reply (tag.Select 2) None ∷ []) (Some 3) }
    // A LISTEN that was rolled back makes no listener. One that stops listening in a block leaves at its end, and one that listens
    // again does so at no point below where it stood before.
    ensures listen_rolled_back { IsTraceOf listen_rolled_back [] (answered 2 tag.Begin ++ answered 3 tag.Savepoint ++ answered 4 tag.Listen ++ answered 5 tag.Rollback ++ answered 6 tag.Commit) None }
    ensures listening_again { IsTraceOf listens_twice other_journal (listens_twice_items 4) (Some 4) }
    ensures again_below_a_mark { IsRefused listens_twice other_journal (listens_twice_items 3) (Some 3) }
    // A session that quits leaves where it is a listener, and its block and its set end.
    ensures quit_no_listener { IsTraceOf quit_alone [] (Line 2 ∷ []) None }
    ensures quit_leaves_nothing { IsRefused quit_alone [] (Line 2 ∷ Leave ∷ []) None }
    ensures quit_with_savepoint { IsTraceOf quit_with_savepoint [] (enlisted 2 3 3 ++ answered 3 tag.Begin ++ answered 4 tag.Savepoint ++ Line 5 ∷ Leave ∷ []) None }
    ensures quit_stays_with_savepoint { IsRefused quit_with_savepoint [] (enlisted 2 3 3 ++ answered 3 tag.Begin ++ answered 4 tag.Savepoint ++ Line 5 ∷ []) (Some 3) }
    ensures quit_block { (state_after (its_terms quit_in_block) (enlisted 2 3 3 ++ answered 3 tag.Begin ++ Line 4 ∷ Leave ∷ [])).block ≡ Idle }
    ensures quit_set { (state_after (its_terms quit_in_block) (enlisted 2 3 3 ++ answered 3 tag.Begin ++ Line 4 ∷ Leave ∷ [])).set ≡ [] }
{}

/// Lines that go wrong.
pub fn refusals()
    // Each refusal is the one that the table gives, with its number, its kind and its name.
    ensures refusals_of_each_kind { IsTraceOf each_refused [] (refused_with (refused.NeedsBlock needs.Savepoint) (refused.NeedsBlock needs.RollbackTo) (refused.NeedsBlock needs.Release) (refused.Syntax 7) (refused.Bounds ChannelEmpty) (refused.NoSavepoint (codes "s")) refused.Aborted) None }
    ensures another_byte { IsRefused bad_alone [] (Line 2 ∷ Refuse (refused.Syntax 8) ∷ []) None }
    ensures another_kind { IsRefused bad_alone [] (Line 2 ∷ Refuse refused.Aborted ∷ []) None }
    ensures another_name { IsRefused begin_release [] (answered 2 tag.Begin ++ Line 3 ∷ Refuse (refused.NoSavepoint (codes "t")) ∷ []) None }
    // A savepoint that was released is none any more.
    ensures released_savepoint { IsTraceOf back_to_released [] (answered 2 tag.Begin ++ answered 3 tag.Savepoint ++ answered 4 tag.Release ++ Line 5 ∷ Refuse (refused.NoSavepoint (codes "s")) ∷ []) None }
    ensures back_to_released { IsRefused back_to_released [] (answered 2 tag.Begin ++ answered 3 tag.Savepoint ++ answered 4 tag.Release ++ answered 5 tag.Rollback) None }
    // A failed block keeps its list and puts nothing into it: ROLLBACK TO goes back into it, and its COMMIT sends what survives.
    ensures back_into_a_failed_block { IsTraceOf back_from_failed back_from_failed_journal back_from_failed_items None }
{}

/// A listener reads while it awaits a flag, unless a block is open or has failed, also on the last line; and not while it is to
/// raise one or to leave.
pub fn reads_in_lines()
    ensures in_await { IsTraceOf (listen_then (Await 0)) other_journal (enlisted 2 3 3 ++ Line 3 ∷ other_read ∷ Found 4 ∷ []) (Some 4) }
    ensures in_block { IsRefused await_in_block other_journal (enlisted 2 3 3 ++ answered 3 tag.Begin ++ Line 4 ∷ other_read ∷ Found 4 ∷ []) (Some 4) }
    ensures in_failed { IsRefused listener_failed other_journal (listener_failed_front ++ other_read ∷ answered 5 tag.Rollback) (Some 4) }
    ensures in_await_in_failed { IsRefused await_in_failed other_journal (listener_failed_front ++ Line 5 ∷ other_read ∷ Found 4 ∷ answered 6 tag.Rollback) (Some 4) }
    ensures before_raise { IsRefused (listen_then (Signal 0)) other_journal (enlisted 2 3 3 ++ Line 3 ∷ other_read ∷ Raise 4 ∷ []) (Some 4) }
    ensures before_publish { IsRefused listen_notify_block other_and_own (answered 2 tag.Begin ++ answered 3 tag.Listen ++ answered 4 tag.Notify ++ Line 5 ∷ Enlist 3 3 ∷ Read 3 4 [] ∷ Publish 4 (x_note ∷ []) ∷ Reply tag.Commit None ∷ []) (Some 4) }
    ensures before_rows { IsRefused (listen_then (Run command.ListeningChannels)) other_journal (enlisted 2 3 3 ++ Line 3 ∷ other_read ∷ Channels (c_name ∷ []) ∷ Reply (tag.Select 1) None ∷ []) (Some 4) }
    ensures before_usage { IsRefused listen_usage other_journal (enlisted 2 3 3 ++ Line 3 ∷ other_read ∷ Used (none_in_use 4 4 None) ∷ Reply (tag.Select 1) None ∷ []) (Some 4) }
    ensures before_leave { IsRefused (listen_then Quit) other_journal (enlisted 2 3 3 ++ Line 3 ∷ Read 3 4 [] ∷ Leave ∷ []) None }
    ensures before_leave_at_commit { IsRefused leaves_at_commit own_journal (leaves_at_commit_front ++ Line 6 ∷ Publish 3 (x_note ∷ []) ∷ Read 3 4 [] ∷ Leave ∷ Reply tag.Commit None ∷ []) None }
{}

/// What items say, and the summary of a drill.
pub fn lines_of_items()
    // The lines of the items that tell of the queue and of channels.
    ensures full { item_lines [] (QueueFull (record { xid = 21; queued = 4; head_page = 17; floor_mark = 9; floor_page = 12; holder = Some 3 }) []) ≡ codes "+full 21 queued 4 head 17 floor 9 page 12 holder 3" ∷ [] }
    ensures used { item_lines [] (Used (record { at = 8; occupied = 2; limit = 256; floor_mark = 3; holder = Some 1 })) ≡ codes "+usage 8 floor 3 holder 1" ∷ codes "  2/256" ∷ [] }
    ensures channels { item_lines [] (Channels (codes "c" ∷ codes "a\"b'c" ∷ [])) ≡ codes "  \"c\"" ∷ codes "  \"a\"\"b'c\"" ∷ [] }
    ensures no_channels { item_lines [] (Channels []) ≡ [] }
    // The summary of a drill counts sessions, transactions, and what was received.
    ensures summaries { brief 40 9 counted_journal counted_traces ≡ counted_text }
{}

ghost use Rattle.std.specs.Prelude.{◌≡◌, [], ◌∷◌, ◌++◌, Some, None, codes, List, ◌+◌, All, false, length};
ghost use Rattle.pgn_base.specs.declared.answers.Tag.TheVariants as tag;
ghost use Rattle.pgn_base.specs.declared.answers.Warning.TheVariants.{AlreadyInBlock};
ghost use Rattle.pgn_base.specs.declared.answers.Refusal.TheVariants as refusal;
ghost use Rattle.pgn_base.specs.declared.command.Command.TheVariants as command;
ghost use Rattle.pgn_answers.specs.declared.block_state.BlockState.TheVariants.{InBlock};
ghost use Rattle.pgn_language.specs.declared.scenario.Act.TheVariants.{Run, Signal, Await, Quit};
ghost use Rattle.pgn_model.specs.declared.item.Item.TheVariants.{Line, Enlist, Publish, QueueFull, Used, Leave, Reply, Refuse, Channels, Raise, Found, TimedOut, Read};
ghost use Rattle.pgn_model.specs.Walk.{start, Enlists, Settings, default_settings};
ghost use Rattle.pgn_model.specs.Trace.{TraceOk, state_after, IsFreshAt, IsUpToDate};
ghost use Rattle.std.specs.List.{list_any};
ghost use Rattle.pgn_base.specs.declared.format.Format.TheVariants.{One, Two};
ghost use Rattle.pgn_journal.specs.declared.tx.Tx.{Tx};
ghost use Rattle.pgn_journal.specs.declared.tx.Fate.TheVariants.{Committed, Aborted};
ghost use Rattle.pgn_language.specs.declared.scenario.Scenario.{Scenario};
ghost use Rattle.pgn_model.specs.declared.trace.Trace.{Trace};
ghost use Rattle.pgn_journal.specs.Journal.{IsFinished, is_committed_in};
ghost use Rattle.pgn_journal.specs.Due.{is_due_to};
ghost use Rattle.pgn_journal.specs.Near.{Near};
ghost use Rattle.pgn_model.specs.Legal.{Legal, IsShownWithin, finished_xids};
ghost use Rattle.pgn_examples.specs.Walks.{on_c, on_d, x_note, c_name, walker, its_terms, its_trace, IsTraceOf, IsRefused, IsFresh, sent_by, own_tx, other_tx, delivered, answered, enlisted, published, listen_notify, notify_alone, notify_listen, listen_alone, listen_again, listen_again_items, never_listens, never_listens_items, block_lines, block_front, block_items, block_journal, joining_lines, joining_front, joining_items, joining_journal, left_open, held_back, other_journal, own_journal, mixed_journal, mixed_due, mixed_front, aborted_journal, own_front, own_read, listen_then, listen_await_begin, listen_then_nothing, listener_again, behind_in_block, d_journal, behind_before, listen_await_listen, listen_await_front, reads_behind, reads_before, begin_twice, empty_line, listen_unlisten, listen_twice, notify_twice, listen_notify_begin, roll_back, y_note, y_journal, two_own_journal, repeats, repeats_journal, repeats_due, listen_notify_listen, listener_trace, one_delivery, sender_trace, silent_trace, IsRun, alone, two_sent, pages_journal, settings_of_two, full_at, usage_at, two_blocks, two_blocks_items, two_blocks_journal, listen_in_block, listen_in_block_front, unlisten_one, unlisten_one_front, both_journal, pg_notify_alone};

/// Lawful traces.
pub fn lawful_walks()
    // Traces of lines outside blocks: who listens already does not enlist again, and a read comes between lines or at the end.
    ensures again { IsTraceOf listen_again [] listen_again_items (Some 3) }
    ensures never { IsTraceOf never_listens own_journal never_listens_items None }
    ensures between_lines { IsTraceOf listen_notify_begin own_journal (own_front ++ own_read ++ answered 4 tag.Begin) (Some 4) }
    ensures channel_dropped { IsTraceOf unlisten_one both_journal (unlisten_one_front ++ Read 3 4 (delivered 3 1006 (on_d (codes "2")) ∷ []) ∷ []) (Some 4) }
    ensures pg_notify { IsTraceOf pg_notify_alone own_journal (Line 2 ∷ Publish 3 (x_note ∷ []) ∷ Reply (tag.Select 1) None ∷ []) None }
    ensures mixed { IsTraceOf listen_notify mixed_journal (mixed_front ++ Read 3 6 mixed_due ∷ []) (Some 6) }
    // Traces of blocks: a COMMIT sends what survives, each once, and what an ended block had is gone. At the end of the script an open
    // block is dropped.
    ensures block { IsTraceOf block_lines block_journal block_items (Some 4) }
    ensures joining { IsTraceOf joining_lines joining_journal joining_items (Some 5) }
    ensures left_open { IsTraceOf left_open other_journal (enlisted 2 3 3 ++ answered 3 tag.Begin ++ Read 3 4 (delivered 3 1006 x_note ∷ []) ∷ []) (Some 4) }
    ensures set_at_the_read { IsTraceOf listen_in_block both_journal (listen_in_block_front ++ Read 3 4 (delivered 3 1006 (on_c (codes "1")) ∷ delivered 3 1006 (on_d (codes "2")) ∷ []) ∷ []) (Some 4) }
    ensures two_blocks { IsTraceOf two_blocks two_blocks_journal two_blocks_items None }
{}

/// Which lines a trace has, and whose it is.
pub fn refused_lines()
    // A trace is of its session and of its database.
    ensures of_another_session { TraceOk (its_terms listen_alone) (record (its_trace (enlisted 2 3 3) (Some 3)) { session = 6 }) [] → ⊥ }
    ensures of_another_database { TraceOk (its_terms listen_alone) (record (its_trace (enlisted 2 3 3) (Some 3)) { db = 8 }) [] → ⊥ }
    // Lines come in order, each once, and each after the whole answer to the one before.
    ensures out_of_order { IsRefused listen_notify own_journal (enlisted 3 3 3 ++ published 2 3 ++ own_read) (Some 4) }
    ensures another_number { IsRefused listen_alone [] (enlisted 9 3 3) (Some 3) }
    ensures left_out { IsRefused listen_notify [] (enlisted 2 3 3) (Some 3) }
    ensures one_more { IsRefused listen_alone [] (enlisted 2 3 3 ++ answered 3 tag.Begin) (Some 3) }
    ensures twice { IsRefused listen_alone [] (enlisted 2 3 3 ++ answered 2 tag.Listen) (Some 3) }
    ensures before_the_answer { IsRefused left_open [] (Line 2 ∷ Enlist 3 3 ∷ Line 3 ∷ Reply tag.Begin None ∷ []) (Some 3) }
    ensures in_an_await { IsRefused listen_await_begin [] (enlisted 2 3 3 ++ Line 3 ∷ answered 4 tag.Begin) (Some 3) }
{}

/// What the answer to a line has.
pub fn refused_answers()
    // Each line has its own answer, once.
    ensures left_out { IsRefused listen_alone [] (Line 2 ∷ Enlist 3 3 ∷ []) (Some 3) }
    ensures another_tag { IsRefused listen_alone [] (Line 2 ∷ Enlist 3 3 ∷ Reply tag.Unlisten None ∷ []) (Some 3) }
    ensures a_warning { IsRefused listen_alone [] (Line 2 ∷ Enlist 3 3 ∷ Reply tag.Listen (Some AlreadyInBlock) ∷ []) (Some 3) }
    ensures no_warning { IsRefused begin_twice [] (answered 2 tag.Begin ++ answered 3 tag.Begin) None }
    ensures twice { IsRefused listen_alone [] (enlisted 2 3 3 ++ Reply tag.Listen None ∷ []) (Some 3) }
    ensures of_nothing { IsRefused empty_line [] (answered 2 tag.Begin) None }
    ensures no_enlist { IsRefused listen_alone [] (answered 2 tag.Listen) None }
    ensures no_publish { IsRefused notify_alone own_journal (answered 2 tag.Notify) None }
    ensures no_leave { IsRefused listen_unlisten [] (enlisted 2 3 3 ++ answered 3 tag.Unlisten) (Some 3) }
    // A line of LISTEN has no item of another kind.
    ensures leaves { IsRefused listen_alone [] (enlisted 2 3 3 ++ Leave ∷ []) (Some 3) }
    ensures raises { IsRefused listen_alone [] (enlisted 2 3 3 ++ Raise 3 ∷ []) (Some 3) }
    ensures finds { IsRefused listen_alone [] (enlisted 2 3 3 ++ Found 3 ∷ []) (Some 3) }
    ensures times_out { IsRefused listen_alone [] (enlisted 2 3 3 ++ TimedOut 1 ∷ []) (Some 3) }
    ensures refuses { IsRefused listen_alone [] (enlisted 2 3 3 ++ Refuse refusal.Aborted ∷ []) (Some 3) }
    ensures shows_channels { IsRefused listen_alone [] (enlisted 2 3 3 ++ Channels (c_name ∷ []) ∷ []) (Some 3) }
{}

/// A session becomes a listener once, where it is to, and no earlier than what it knows.
pub fn refused_enlists()
    ensures twice { IsRefused listen_alone [] (Line 2 ∷ Enlist 3 3 ∷ Enlist 3 3 ∷ Reply tag.Listen None ∷ []) (Some 3) }
    ensures again { IsRefused listen_twice [] (enlisted 2 3 3 ++ enlisted 3 3 3) (Some 3) }
    ensures unasked { IsRefused notify_alone own_journal (Line 2 ∷ Enlist 3 3 ∷ Publish 3 (x_note ∷ []) ∷ Reply tag.Notify None ∷ []) (Some 3) }
    ensures base_too_low { IsRefused listen_alone [] (enlisted 2 2 3) (Some 3) }
    ensures base_past_point { IsRefused listen_alone other_journal (enlisted 2 4 3) (Some 3) }
    ensures below_told { IsRefused notify_listen own_journal (published 2 3 ++ enlisted 3 3 3) (Some 3) }
    ensures past_journal { IsRefused listen_alone [] (enlisted 2 3 4) (Some 4) }
    ensures below_a_mark { Enlists mixed_journal listener_again 3 4 → ⊥ }
    ensures at_a_mark { Enlists mixed_journal listener_again 3 5 }
{}

/// What is published stands in the journal as this session sent it, after all that it knows.
pub fn refused_publishes()
    ensures other_notes { IsRefused notify_alone y_journal (Line 2 ∷ Publish 3 (y_note ∷ []) ∷ Reply tag.Notify None ∷ []) None }
    ensures repeats { IsRefused block_lines repeats_journal (block_front ++ Line 10 ∷ Publish 3 repeats ∷ Reply tag.Commit None ∷ Read 3 4 repeats_due ∷ []) (Some 4) }
    ensures of_other_notes { IsRefused notify_alone y_journal (published 2 3) None }
    ensures of_another_session { IsRefused notify_alone other_journal (published 2 3) None }
    ensures of_another_database { IsRefused notify_alone (sent_by 5 8 (x_note ∷ []) ∷ []) (published 2 3) None }
    ensures of_an_aborted { IsRefused notify_alone aborted_journal (published 2 3) None }
    ensures past_journal { IsRefused notify_alone own_journal (published 2 4) None }
    ensures below_the_first { IsRefused notify_alone own_journal (published 2 2) None }
    ensures out_of_order { IsRefused notify_twice two_own_journal (published 2 4 ++ published 3 3) None }
    ensures one_for_two { IsRefused notify_twice own_journal (published 2 3 ++ published 3 3) None }
    ensures below_the_mark { IsRefused listen_notify own_journal (enlisted 2 3 4 ++ published 3 3) (Some 4) }
    ensures twice { IsRefused notify_alone two_own_journal (Line 2 ∷ Publish 3 (x_note ∷ []) ∷ Publish 4 (x_note ∷ []) ∷ Reply tag.Notify None ∷ []) None }
    ensures unasked { IsRefused listen_alone own_journal (Line 2 ∷ Enlist 3 3 ∷ Publish 3 (x_note ∷ []) ∷ Reply tag.Listen None ∷ []) (Some 3) }
    ensures before_enlist { IsRefused joining_lines own_journal (joining_front ++ Line 6 ∷ Publish 3 (x_note ∷ []) ∷ Enlist 3 4 ∷ Reply tag.Commit None ∷ []) (Some 4) }
    ensures rolled_back { IsRefused roll_back own_journal (answered 2 tag.Begin ++ answered 3 tag.Notify ++ Line 4 ∷ Publish 3 (x_note ∷ []) ∷ Reply tag.Rollback None ∷ []) None }
{}

/// When a listener reads, and what it receives.
pub fn refused_reads()
    // A read goes from the mark to no less than what the session was told, within the journal, where no block is open.
    ensures before_the_mark { IsRefused listen_alone mixed_journal (enlisted 2 3 4 ++ Read 3 6 mixed_due ∷ []) (Some 6) }
    ensures past_the_mark { IsRefused listen_alone mixed_journal (enlisted 2 3 3 ++ Read 5 6 (delivered 5 1005 x_note ∷ []) ∷ []) (Some 6) }
    ensures no_listener { IsRefused notify_alone own_journal (published 2 3 ++ Read 3 4 [] ∷ []) (Some 4) }
    ensures twice { IsRefused listen_notify own_journal (own_front ++ own_read ++ own_read) (Some 4) }
    ensures of_none { IsRefused listen_alone [] (enlisted 2 3 3 ++ Read 3 3 [] ∷ []) (Some 3) }
    ensures below_told { IsRefused listen_notify mixed_journal (mixed_front ++ Read 3 5 (delivered 4 1006 (on_c (codes "1")) ∷ delivered 4 1006 (on_c (codes "2")) ∷ []) ∷ []) (Some 5) }
    ensures past_journal { IsRefused listen_notify own_journal (own_front ++ Read 3 5 (delivered 3 1005 x_note ∷ []) ∷ []) (Some 5) }
    ensures in_an_open_block { IsRefused held_back other_journal (enlisted 2 3 3 ++ answered 3 tag.Begin ++ (Read 3 4 (delivered 3 1006 x_note ∷ []) ∷ []) ++ answered 4 tag.Commit) (Some 4) }
    ensures before_the_answer { IsRefused listen_alone other_journal (Line 2 ∷ Enlist 3 3 ∷ Read 3 4 (delivered 3 1006 x_note ∷ []) ∷ Reply tag.Listen None ∷ []) (Some 4) }
    // A read delivers all that is due, and nothing else.
    ensures receives_nothing { IsRefused listen_notify mixed_journal (mixed_front ++ Read 3 6 ([]) ∷ []) (Some 6) }
    ensures one_left_out { IsRefused listen_notify mixed_journal (mixed_front ++ Read 3 6 (delivered 4 1006 (on_c (codes "1")) ∷ delivered 5 1005 x_note ∷ []) ∷ []) (Some 6) }
    ensures one_too_many { IsRefused listen_notify mixed_journal (mixed_front ++ Read 3 6 (delivered 4 1006 (on_c (codes "1")) ∷ delivered 4 1006 (on_c (codes "2")) ∷ delivered 5 1005 x_note ∷ delivered 5 1005 x_note ∷ []) ∷ []) (Some 6) }
    ensures of_another_database { IsRefused listen_notify mixed_journal (mixed_front ++ Read 3 6 (delivered 3 1008 x_note ∷ delivered 4 1006 (on_c (codes "1")) ∷ delivered 4 1006 (on_c (codes "2")) ∷ delivered 5 1005 x_note ∷ []) ∷ []) (Some 6) }
    ensures in_another_order { IsRefused listen_notify mixed_journal (mixed_front ++ Read 3 6 (delivered 4 1006 (on_c (codes "2")) ∷ delivered 4 1006 (on_c (codes "1")) ∷ delivered 5 1005 x_note ∷ []) ∷ []) (Some 6) }
    ensures with_another_number { IsRefused listen_notify mixed_journal (mixed_front ++ Read 3 6 (delivered 4 1006 (on_c (codes "1")) ∷ delivered 4 1006 (on_c (codes "2")) ∷ delivered 4 1005 x_note ∷ []) ∷ []) (Some 6) }
    ensures of_another_process { IsRefused listen_notify mixed_journal (mixed_front ++ Read 3 6 (delivered 4 1006 (on_c (codes "1")) ∷ delivered 4 1006 (on_c (codes "2")) ∷ delivered 5 1006 x_note ∷ []) ∷ []) (Some 6) }
{}

/// A trace ends after the last answer, with the mark of a session that listens then.
pub fn refused_ends()
    ensures no_mark { IsRefused listen_alone [] (enlisted 2 3 3) None }
    ensures another_mark { IsRefused listen_notify own_journal (own_front ++ own_read) (Some 3) }
    ensures a_mark { IsRefused notify_alone own_journal (published 2 3) (Some 4) }
    ensures in_an_await { IsRefused (listen_then (Await 0)) [] listen_then_nothing (Some 3) }
    ensures in_a_signal { IsRefused (listen_then (Signal 0)) [] listen_then_nothing (Some 3) }
    ensures in_a_quit { IsRefused (listen_then Quit) [] listen_then_nothing (Some 3) }
    ensures in_a_query { IsRefused (listen_then (Run command.ListeningChannels)) [] listen_then_nothing (Some 3) }
    ensures in_a_query_of_usage { IsRefused (listen_then (Run command.QueueUsage)) [] listen_then_nothing (Some 3) }
    ensures in_a_refusal { IsRefused (listen_then (Run (command.Bad 0))) [] listen_then_nothing (Some 3) }
{}

/// Reads that are left out, and such as may be.
pub fn missing_reads()
    // No read is left out at the end of a line, unless a block is open.
    ensures block_is_fresh { IsFresh block_lines block_journal block_items (Some 4) }
    ensures fresh_between_lines { IsFresh listen_notify_begin own_journal (own_front ++ own_read ++ answered 4 tag.Begin) (Some 4) }
    ensures at_the_end { IsFresh listen_notify own_journal own_front (Some 3) → ⊥ }
    ensures between_lines { IsFresh listen_notify_begin own_journal (own_front ++ answered 4 tag.Begin) (Some 3) → ⊥ }
    ensures in_a_block { IsFreshAt (its_terms []) own_journal behind_in_block (Line 4) }
    // Who listens on a channel behind what was sent on it, and knows so by a flag, does not receive that. In a trace where it does,
    // each item is allowed, but the read before LISTEN was left out.
    ensures reads_behind { IsTraceOf listen_await_listen d_journal reads_behind (Some 4) }
    ensures read_left_out { IsFresh listen_await_listen d_journal reads_behind (Some 4) → ⊥ }
    ensures left_out_at_its_line { IsFreshAt (its_terms listen_await_listen) d_journal (state_after (its_terms listen_await_listen) listen_await_front) (Line 4) → ⊥ }
    ensures reads_before { IsTraceOf listen_await_listen d_journal reads_before (Some 4) }
    ensures fresh_before { IsFresh listen_await_listen d_journal reads_before (Some 4) }
{}

/// Outside of a block a listener reads up to what it was told of before a line that listens or opens a block, and need not before
/// another, where nothing is due to it.
pub fn first_reads()
    ensures listen { IsFreshAt (its_terms []) d_journal (behind_before (command.Listen (codes "d"))) (Line 4) → ⊥ }
    ensures begin { IsFreshAt (its_terms []) d_journal (behind_before command.Begin) (Line 4) → ⊥ }
    ensures start { IsFreshAt (its_terms []) d_journal (behind_before command.Start) (Line 4) → ⊥ }
    ensures notify { IsFreshAt (its_terms []) d_journal (behind_before (command.Notify x_note)) (Line 4) }
    ensures has_read { IsFreshAt (its_terms []) d_journal (record (behind_before (command.Listen (codes "d"))) { mark = Some 4 }) (Line 4) }
    ensures no_listener { IsFreshAt (its_terms []) d_journal (record (behind_before (command.Listen (codes "d"))) { mark = None }) (Line 4) }
    ensures in_a_block { IsFreshAt (its_terms []) d_journal (record (behind_before (command.Listen (codes "d"))) { block = InBlock }) (Line 4) }
{}

/// What the walk is given, and what it keeps of its items.
pub fn what_the_walk_keeps()
    // What holds where the command line sets nothing.
    ensures settings_by_default { default_settings ≡ record { format = One; limit = 256; patience = 10000000 } }
    // What the walk keeps of its items.
    ensures marks { (state_after (its_terms listen_alone) (enlisted 2 3 4 ++ Read 4 6 [] ∷ [])).marks ≡ 3 ∷ 4 ∷ 6 ∷ [] }
    ensures first_told { (start (walker [])).told ≡ 3 }
    ensures told { (state_after (its_terms notify_alone) (published 2 8)).told ≡ 9 }
    ensures mark { (state_after (its_terms listen_alone) (enlisted 2 3 4)).mark ≡ Some 4 }
{}

/// A listener and a sender: each transaction is shown by its own session, and the listener has read the whole journal.
pub fn runs_of_two()
    ensures lawful { IsRun other_journal (listener_trace 4 one_delivery ∷ sender_trace ∷ []) }
    ensures a_trace_is_missing { IsRun other_journal (listener_trace 4 one_delivery ∷ []) → ⊥ }
    ensures a_trace_too_many { IsRun other_journal (listener_trace 4 one_delivery ∷ sender_trace ∷ sender_trace ∷ []) → ⊥ }
    ensures in_another_order { IsRun other_journal (sender_trace ∷ listener_trace 4 one_delivery ∷ []) → ⊥ }
    ensures the_second_is_not_lawful { IsRun [] (its_trace (enlisted 2 3 3) (Some 3) ∷ silent_trace ∷ []) → ⊥ }
    ensures not_all_is_read { IsRun other_journal (its_trace (enlisted 2 3 3) (Some 3) ∷ sender_trace ∷ []) → ⊥ }
    ensures an_entry_is_not_shown { IsRun (other_tx (x_note ∷ []) ∷ other_tx (x_note ∷ []) ∷ []) (listener_trace 5 (delivered 3 1006 x_note ∷ delivered 4 1006 x_note ∷ []) ∷ sender_trace ∷ []) → ⊥ }
    ensures an_entry_is_of_no_section { IsRun (other_tx (x_note ∷ []) ∷ sent_by 8 7 (x_note ∷ []) ∷ []) (listener_trace 5 (delivered 3 1006 x_note ∷ delivered 4 1008 x_note ∷ []) ∷ sender_trace ∷ []) → ⊥ }
    ensures an_entry_is_not_finished { IsRun (two_sent (x_note ∷ []) 0 Committed ∷ []) (listener_trace 4 one_delivery ∷ sender_trace ∷ []) → ⊥ }
    ensures a_read_is_left_out { Legal (alone listen_notify_listen) default_settings own_journal (its_trace (own_front ++ answered 4 tag.Listen ++ own_read) (Some 4) ∷ []) → ⊥ }
{}

/// What a legal run shows is within its journal.
pub fn what_is_shown()
    ensures of_a_run { (scenario : Scenario) (settings : Settings) (journal : List Tx) (traces : List Trace) → Legal scenario settings journal traces → All (λ trace. All (IsShownWithin (3 + length journal)) trace.items) traces }
    ensures base { IsShownWithin 4 (Enlist 5 4) → ⊥ }
    ensures point { IsShownWithin 4 (Enlist 4 5) → ⊥ }
    ensures published { IsShownWithin 4 (Publish 5 []) → ⊥ }
    ensures full { IsShownWithin 4 (QueueFull (full_at 5 4) []) → ⊥ }
    ensures floor_of_full { IsShownWithin 4 (QueueFull (full_at 4 5) []) → ⊥ }
    ensures used { IsShownWithin 4 (Used (usage_at 5 4)) → ⊥ }
    ensures floor_of_used { IsShownWithin 4 (Used (usage_at 4 5)) → ⊥ }
    ensures raised { IsShownWithin 4 (Raise 5) → ⊥ }
    ensures found { IsShownWithin 4 (Found 5) → ⊥ }
    ensures read_from { IsShownWithin 4 (Read 5 4 []) → ⊥ }
    ensures read_to { IsShownWithin 4 (Read 4 5 []) → ⊥ }
    ensures finished { finished_xids (Line 2 ∷ QueueFull (full_at 3 3) (x_note ∷ []) ∷ Line 3 ∷ Publish 4 (x_note ∷ []) ∷ Read 3 5 [] ∷ []) ≡ 3 ∷ 4 ∷ [] }
{}

/// What is no finished transaction.
pub fn unfinished_transactions()
    ensures more_queued { IsFinished (two_sent (x_note ∷ y_note ∷ []) 3 Committed) → ⊥ }
    ensures no_channel { IsFinished (two_sent (record { channel = []; payload = [] } ∷ []) 1 Committed) → ⊥ }
    ensures no_channel_not_queued { IsFinished (two_sent (x_note ∷ (record { channel = []; payload = [] }) ∷ []) 1 Aborted) → ⊥ }
{}

/// A reader need not read on while nothing is due to it and it is less than four pages behind.
pub fn how_near()
    ensures three_pages { Near One (is_committed_in 7) pages_journal 3 6 }
    ensures four_pages { Near One (is_committed_in 7) pages_journal 3 7 → ⊥ }
    ensures from_the_second { Near One (is_committed_in 7) pages_journal 4 7 }
    ensures something_is_due { Near One (is_committed_in 7) own_journal 3 4 → ⊥ }
    ensures of_the_last { Near One (is_committed_in 7) (own_tx (x_note ∷ []) ∷ own_tx (x_note ∷ []) ∷ []) 4 5 → ⊥ }
    ensures at_the_end_of_what_is_due { Near One (is_committed_in 7) own_journal 4 4 }
    ensures on_its_channel { Near One (is_due_to 7 (c_name ∷ [])) own_journal 3 4 → ⊥ }
    ensures on_another_channel { list_any (is_due_to 7 (codes "d" ∷ [])) own_journal ≡ false }
    ensures of_another_database { list_any (is_committed_in 7) (sent_by 8 5 (x_note ∷ []) ∷ aborted_journal) ≡ false }
    ensures by_its_format { (journal : List Tx) → IsUpToDate (record (its_terms []) { settings = settings_of_two }) journal behind_in_block → Near Two (is_due_to 7 []) journal 3 4 }
{}

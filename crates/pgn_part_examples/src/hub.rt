//! A worked example, call by call: what is known of a pass before a call and after it, and beside it what no call leaves. What is
//! refused differs from what is met in what the clause is named after.
ghost use Rattle.std.specs.Prelude.{◌≡◌, ◌≢◌, ◌<◌, ◌≤◌, true, false, [], ◌∷◌, map, length, Some, None, All, AllPairs, IsSome, codes};
ghost use Rattle.std.specs.List.{range_with_len};
ghost use Rattle.pgn_base.specs.declared.format.Format.TheVariants.{One};
ghost use Rattle.pgn_journal.specs.declared.tx.Fate.TheVariants.{Aborted};
ghost use Rattle.pgn_hub.specs.Shape.{IsShape};
ghost use Rattle.pgn_hub.specs.Passes.{IsSeated, IsWithin, no_advance, opened_passes};
ghost use Rattle.pgn_hub.specs.Calls.{HasPublished, HasEnlisted, HasHeard, HasInterest, HasLearned, HasLeft, HasLooked, HasMetFull, HasRaised, HasRead, HasMeasured, HasWoken};
ghost use Rattle.pgn_hub.specs.Gathered.{Gathered};
ghost use Rattle.pgn_part_examples.specs.Hub.{two_seats, opened_1, opened_2, note_a, both_notes, tx_3, first_point, enlisted, interested, listening, quiet, published, woken_1, got_a, got_b, has_read, has_left, raised_0, found_0, found_none, met_one, met_nobody, met_both, met_reader, usage_4, measured, measured_reader, measured_joiner, heard, long_note, long_3, long_5, before_full, full_5, after_full, both_before_full, both_after_full, three_notes, full_3, larger_full, also_published, last_1, last_2};

/// Two passes are opened.
pub fn open()
    ensures shaped { IsShape two_seats }
    ensures passes { opened_passes 1 two_seats.seats ≡ opened_1 ∷ opened_2 ∷ [] }
    ensures in_order { map (λ k. k.session) (opened_passes 1 two_seats.seats) ≡ range_with_len 1 (length two_seats.seats) }
    ensures within { All IsWithin (opened_1 ∷ opened_2 ∷ []) }
    ensures seated { All (IsSeated two_seats) (opened_1 ∷ opened_2 ∷ []) }
    ensures more_left_than_its_seat { IsSeated two_seats (record opened_1 { notes_left = 9 }) → ⊥ }
{}

/// What holds of each pass between calls, and the conditions of the calls, where each comes after the one before it.
pub fn between_calls()
    ensures within { All IsWithin (enlisted ∷ interested ∷ listening ∷ quiet ∷ published ∷ woken_1 ∷ has_read ∷ has_left ∷ raised_0 ∷ found_0 ∷ found_none ∷ measured ∷ heard ∷ last_1 ∷ last_2 ∷ []) }
    ensures within_at_full_queue { All IsWithin (before_full ∷ after_full ∷ both_before_full ∷ both_after_full ∷ []) }
    // It has seen the transaction 3, and wasn't told of it.
    ensures raised_past_told { IsWithin (record woken_1 { raised = (0, 4) ∷ [] }) → ⊥ }
    ensures read_past_told { IsWithin (record has_read { told = 3 }) → ⊥ }
    ensures signalled_past_told { IsWithin (record woken_1 { signalled = 4 }) → ⊥ }
    ensures own_past_signalled { IsWithin (record published { signalled = 3 }) → ⊥ }
    // A flag has told it of the transaction 3, of which it knows no wake to be set.
    ensures told_and_owes_nothing { IsWithin (record found_0 { owes = false }) → ⊥ }
    ensures may_enlist { All (λ k. k.mark ≡ None) (opened_1 ∷ opened_2 ∷ has_left ∷ []) }
    ensures may_read { All (λ k. IsSome k.mark) (enlisted ∷ interested ∷ listening ∷ quiet ∷ woken_1 ∷ has_read ∷ found_0 ∷ found_none ∷ heard ∷ []) }
    ensures some_notes { both_notes ≢ [] }
    ensures different_notes { AllPairs (λ a b. a ≢ b) both_notes }
    ensures few_notes { All (λ k. length both_notes ≤ k.notes_left) (opened_2 ∷ published ∷ []) }
    ensures one_long_note { length long_note ≤ before_full.notes_left }
    ensures flags { All (λ flag. flag < two_seats.flags) (0 ∷ 1 ∷ []) }
    ensures all_passes { map (λ k. k.session) (last_1 ∷ last_2 ∷ []) ≡ range_with_len 1 (length two_seats.seats) }
{}

/// Session 2 publishes the first transaction.
pub fn publish()
    ensures met { HasPublished opened_2 published both_notes 3 }
    // Session 1 publishes the next one, and hears of the first in this call.
    ensures after_another { HasPublished listening also_published (note_a ∷ []) 4 }
    ensures as_if_alone { HasPublished listening (record also_published { own = 3 ∷ []; told = 4; signalled = 4 }) (note_a ∷ []) 3 → ⊥ }
    ensures another_number { HasPublished opened_2 published both_notes 4 → ⊥ }
    ensures not_told { HasPublished opened_2 (record published { told = 3 }) both_notes 3 → ⊥ }
    ensures not_signalled { HasPublished opened_2 (record published { signalled = 3 }) both_notes 3 → ⊥ }
    ensures not_its_own { HasPublished opened_2 (record published { own = [] }) both_notes 3 → ⊥ }
    ensures not_taken { HasPublished opened_2 (record published { notes_left = 8 }) both_notes 3 → ⊥ }
    ensures mark_moved { HasPublished opened_2 (record published { mark = Some 4 }) both_notes 3 → ⊥ }
    ensures not_known { HasPublished opened_2 (record published { seen = [] }) both_notes 3 → ⊥ }
    ensures twice { HasPublished opened_2 (record published { seen = tx_3 ∷ tx_3 ∷ [] }) both_notes 3 → ⊥ }
    ensures lost_notification { HasPublished opened_2 (record published { seen = (record tx_3 { notes = note_a ∷ [] }) ∷ [] }) both_notes 3 → ⊥ }
    ensures aborted { HasPublished opened_2 (record published { seen = (record tx_3 { fate = Aborted }) ∷ [] }) both_notes 3 → ⊥ }
    ensures another_sender { HasPublished opened_2 (record published { seen = (record tx_3 { session = 1 }) ∷ [] }) both_notes 3 → ⊥ }
{}

/// Session 1 becomes a listener.
pub fn enlist()
    ensures met { HasEnlisted opened_1 enlisted first_point }
    ensures still_owes { HasEnlisted opened_1 (record enlisted { owes = true }) first_point → ⊥ }
    // The session has told no channel in this call.
    ensures told_a_set { HasEnlisted opened_1 (record enlisted { set = codes "c" ∷ [] }) first_point → ⊥ }
    // It had listened on the channel, and left.
    ensures keeps_its_set { HasEnlisted has_left (record has_left { mark = Some 4; marks = 3 ∷ 3 ∷ 4 ∷ 3 ∷ 4 ∷ [] }) (record first_point { point = 4 }) → ⊥ }
    ensures no_mark { HasEnlisted opened_1 (record enlisted { mark = None }) first_point → ⊥ }
    ensures base_not_kept { HasEnlisted opened_1 (record enlisted { marks = 3 ∷ [] }) first_point → ⊥ }
    ensures base_too_early { HasEnlisted opened_1 (record enlisted { marks = 2 ∷ 3 ∷ [] }) (record first_point { base = 2 }) → ⊥ }
    ensures base_after_point { HasEnlisted opened_1 (record enlisted { marks = 4 ∷ 3 ∷ [] }) (record first_point { base = 4 }) → ⊥ }
    ensures past_the_journal { HasEnlisted opened_1 (record enlisted { mark = Some 4; told = 4; marks = 3 ∷ 4 ∷ [] }) (record first_point { point = 4 }) → ⊥ }
    // It begins behind the first transaction, and so is told of it.
    ensures behind { HasEnlisted (record opened_1 { seen = tx_3 ∷ [] }) (record enlisted { seen = tx_3 ∷ []; mark = Some 4; told = 4; marks = 3 ∷ 4 ∷ [] }) (record first_point { point = 4 }) }
    ensures not_told { HasEnlisted (record opened_1 { seen = tx_3 ∷ [] }) (record enlisted { seen = tx_3 ∷ []; mark = Some 4; marks = 3 ∷ 4 ∷ [] }) (record first_point { point = 4 }) → ⊥ }
    // The session was told of the first transaction.
    ensures below_told { HasEnlisted (record opened_1 { seen = tx_3 ∷ []; told = 4 }) (record enlisted { seen = tx_3 ∷ []; told = 4 }) first_point → ⊥ }
    // It had seen the first transaction, and wasn't told of it.
    ensures below_seen { HasEnlisted (record opened_1 { seen = tx_3 ∷ [] }) (record enlisted { seen = tx_3 ∷ [] }) first_point → ⊥ }
    // It had read the first transaction, and left.
    ensures again { HasEnlisted has_left (record has_left { mark = Some 4; set = []; marks = 3 ∷ 3 ∷ 4 ∷ 3 ∷ 4 ∷ [] }) (record first_point { point = 4 }) }
    ensures below_a_mark { HasEnlisted has_left (record has_left { mark = Some 3; set = []; marks = 3 ∷ 3 ∷ 4 ∷ 3 ∷ 3 ∷ [] }) first_point → ⊥ }
{}

/// Session 1 tells that it listens on the channel.
pub fn interest()
    ensures met { HasInterest enlisted interested (codes "c" ∷ []) }
    ensures owes_nothing { HasInterest enlisted (record interested { owes = false }) (codes "c" ∷ []) → ⊥ }
    ensures another_channel { HasInterest enlisted interested (codes "d" ∷ []) → ⊥ }
    ensures keeps_the_old { HasInterest interested interested (codes "d" ∷ []) → ⊥ }
    ensures has_both { HasInterest interested (record interested { set = codes "c" ∷ codes "d" ∷ [] }) (codes "d" ∷ []) → ⊥ }
    ensures mark_moved { HasInterest enlisted (record interested { mark = Some 4 }) (codes "c" ∷ []) → ⊥ }
{}

/// Session 1 reads the first transaction.
pub fn scan()
    ensures met { HasRead woken_1 has_read (codes "c" ∷ []) 4 [] (got_a ∷ got_b ∷ []) }
    ensures behind { HasRead woken_1 has_read (codes "c" ∷ []) 4 (got_b ∷ []) (got_b ∷ got_a ∷ got_b ∷ []) }
    ensures another_channel { HasRead woken_1 has_read (codes "d" ∷ []) 4 [] [] }
    ensures one_too_many { HasRead woken_1 has_read (codes "c" ∷ []) 4 [] (got_a ∷ got_b ∷ got_b ∷ []) → ⊥ }
    ensures one_too_few { HasRead woken_1 has_read (codes "c" ∷ []) 4 [] (got_a ∷ []) → ⊥ }
    ensures other_order { HasRead woken_1 has_read (codes "c" ∷ []) 4 [] (got_b ∷ got_a ∷ []) → ⊥ }
    ensures not_behind { HasRead woken_1 has_read (codes "c" ∷ []) 4 (got_b ∷ []) (got_a ∷ got_b ∷ []) → ⊥ }
    ensures still_owes { HasRead woken_1 (record has_read { owes = true }) (codes "c" ∷ []) 4 [] (got_a ∷ got_b ∷ []) → ⊥ }
    ensures mark_stays { HasRead woken_1 (record has_read { mark = Some 3 }) (codes "c" ∷ []) 4 [] (got_a ∷ got_b ∷ []) → ⊥ }
    ensures not_kept { HasRead woken_1 (record has_read { marks = 3 ∷ 3 ∷ [] }) (codes "c" ∷ []) 4 [] (got_a ∷ got_b ∷ []) → ⊥ }
    ensures not_told { HasRead woken_1 (record has_read { told = 3 }) (codes "c" ∷ []) 4 [] (got_a ∷ got_b ∷ []) → ⊥ }
    // It had seen the first transaction.
    ensures below_seen { HasRead woken_1 (record has_read { mark = Some 3; told = 3; marks = 3 ∷ 3 ∷ 3 ∷ [] }) (codes "c" ∷ []) 3 [] [] → ⊥ }
    // It was told of the first transaction.
    ensures below_told { HasRead heard (record heard { marks = 3 ∷ 3 ∷ 3 ∷ []; owes = false }) (codes "c" ∷ []) 3 [] [] → ⊥ }
    ensures past_the_journal { HasRead woken_1 (record has_read { mark = Some 5; told = 5; marks = 3 ∷ 3 ∷ 5 ∷ [] }) (codes "c" ∷ []) 5 [] (got_a ∷ got_b ∷ []) → ⊥ }
    ensures no_listener { HasRead (record woken_1 { mark = None }) has_read (codes "c" ∷ []) 4 [] (got_a ∷ got_b ∷ []) → ⊥ }
    ensures refused { HasLearned woken_1 woken_1 }
    ensures refused_and_paid { HasLearned woken_1 (record woken_1 { owes = false }) → ⊥ }
    ensures refused_and_moved { HasLearned woken_1 (record woken_1 { mark = Some 4 }) → ⊥ }
{}

/// Session 1 leaves.
pub fn leave()
    ensures met { HasLeft has_read has_left }
    ensures stays { HasLeft has_read has_read → ⊥ }
    ensures forgets { HasLeft has_read (record has_left { marks = [] }) → ⊥ }
    ensures forgets_told { HasLeft last_1 (record last_1 { mark = None; told = 3 }) → ⊥ }
{}

/// Session 1 looks at its wake.
pub fn woken()
    ensures set { HasWoken One listening woken_1 true }
    ensures unset { HasWoken One listening quiet false }
    ensures owed { HasWoken One woken_1 (record woken_1 { wake_look = Some (false, true) }) true }
    ensures set_and_false { HasWoken One listening (record quiet { wake_look = Some (true, false) }) false → ⊥ }
    ensures owed_and_false { HasWoken One woken_1 (record woken_1 { owes = false; wake_look = Some (false, true) }) false → ⊥ }
    ensures unset_and_true { HasWoken One listening (record woken_1 { wake_look = Some (false, false) }) true → ⊥ }
    ensures true_and_not_owed { HasWoken One listening (record woken_1 { owes = false }) true → ⊥ }
    ensures not_shown { HasWoken One listening (record woken_1 { wake_look = None }) true → ⊥ }
    // It was told of a transaction of its database that it hasn't read, on its channel.
    ensures due_and_false { HasWoken One (record heard { owes = false }) (record heard { owes = false; wake_look = Some (false, false) }) false → ⊥ }
{}

/// Session 2 raises the flag 0.
pub fn raise()
    ensures met { HasRaised published raised_0 0 4 }
    ensures less { HasRaised published (record raised_0 { raised = (0, 3) ∷ [] }) 0 3 → ⊥ }
    ensures another_number { HasRaised published raised_0 0 3 → ⊥ }
    ensures another_flag { HasRaised published raised_0 1 4 → ⊥ }
    ensures not_kept { HasRaised published published 0 4 → ⊥ }
{}

/// The sessions look at flags.
pub fn look()
    ensures found { HasLooked listening found_0 0 (Some 4) }
    ensures none { HasLooked listening found_none 1 None }
    ensures not_told { HasLooked listening (record found_0 { told = 3 }) 0 (Some 4) → ⊥ }
    ensures owes_nothing { HasLooked listening (record found_0 { owes = false }) 0 (Some 4) → ⊥ }
    // It has read what the flag tells of.
    ensures found_behind { HasLooked has_read last_1 0 (Some 4) }
    ensures owes_for_nothing { HasLooked has_read (record last_1 { owes = true }) 0 (Some 4) → ⊥ }
    // It is no listener.
    ensures owes_unheard { HasLooked opened_1 (record found_0 { mark = None; marks = []; set = [] }) 0 (Some 4) → ⊥ }
    ensures not_kept { HasLooked listening (record found_0 { found = [] }) 0 (Some 4) → ⊥ }
    ensures not_counted { HasLooked listening (record found_none { looks = 0 }) 1 None → ⊥ }
    ensures not_shown { HasLooked listening (record found_none { flag_look = Some (0, None) }) 1 None → ⊥ }
    ensures none_after_its_own { HasLooked raised_0 (record raised_0 { looks = 1; flag_look = Some (0, None) }) 0 None → ⊥ }
    ensures none_after_found { HasLooked found_0 (record found_0 { looks = 2; flag_look = Some (0, None) }) 0 None → ⊥ }
    ensures less_than_its_own { HasLooked raised_0 (record raised_0 { found = (0, 3) ∷ []; looks = 1; flag_look = Some (0, Some 3) }) 0 (Some 3) → ⊥ }
    ensures less_than_found { HasLooked found_0 (record found_0 { found = (0, 4) ∷ (0, 3) ∷ []; looks = 2; flag_look = Some (0, Some 3) }) 0 (Some 3) → ⊥ }
{}

/// Session 2 asks how much of the queue is in use.
pub fn usage()
    ensures met { HasMeasured two_seats published measured usage_4 }
    ensures nobody_listens { HasMeasured two_seats published (record published { advance = met_nobody }) (record usage_4 { floor_mark = 4; holder = None }) }
    ensures another_number { HasMeasured two_seats published measured (record usage_4 { at = 5 }) → ⊥ }
    ensures another_limit { HasMeasured two_seats published measured (record usage_4 { limit = 3 }) → ⊥ }
    ensures a_page_more { HasMeasured two_seats published measured (record usage_4 { occupied = 1 }) → ⊥ }
    ensures floor_above_a_mark { HasMeasured two_seats published measured (record usage_4 { floor_mark = 4; holder = None }) → ⊥ }
    ensures floor_below_all { HasMeasured two_seats published measured (record usage_4 { floor_mark = 2 }) → ⊥ }
    ensures no_holder { HasMeasured two_seats published measured (record usage_4 { holder = None }) → ⊥ }
    // The floor is the least that either look met.
    ensures reads_between_looks { HasMeasured two_seats published measured_reader usage_4 }
    ensures floor_of_the_second_look { HasMeasured two_seats published measured_reader (record usage_4 { floor_mark = 4; holder = None }) → ⊥ }
    ensures joins_between_looks { HasMeasured two_seats published measured_joiner usage_4 }
    ensures floor_of_the_first_look { HasMeasured two_seats published measured_joiner (record usage_4 { floor_mark = 4; holder = None }) → ⊥ }
    ensures looked_once { HasMeasured two_seats published (record measured { advance = record met_one { second = [] } }) usage_4 → ⊥ }
    // The advance of an earlier call, in which nobody was looked at anew.
    ensures an_earlier_advance { HasMeasured two_seats measured measured usage_4 → ⊥ }
{}

/// Session 2 meets a full queue.
pub fn full()
    ensures met { HasMetFull two_seats before_full after_full long_note full_5 }
    ensures both_listen { HasMetFull two_seats both_before_full both_after_full long_note full_5 }
    // Three long notifications need three pages, whoever listens.
    ensures nobody_listens { HasMetFull two_seats opened_2 larger_full three_notes full_3 }
    ensures somebody_listens { HasMetFull two_seats opened_2 larger_full three_notes (record full_3 { holder = Some 1 }) → ⊥ }
    ensures two_notes_fit { HasMetFull two_seats opened_2 larger_full three_notes (record full_3 { queued = 1 }) → ⊥ }
    ensures higher_number { HasMetFull two_seats both_before_full both_after_full long_note (record full_5 { holder = Some 2 }) → ⊥ }
    ensures no_holder { HasMetFull two_seats before_full after_full long_note (record full_5 { holder = None }) → ⊥ }
    ensures holder_not_met { HasMetFull two_seats before_full after_full long_note (record full_5 { holder = Some 2 }) → ⊥ }
    ensures floor_above_a_mark { HasMetFull two_seats before_full after_full long_note (record full_5 { floor_mark = 4 }) → ⊥ }
    ensures a_page_is_left { HasMetFull two_seats before_full after_full long_note (record full_5 { head_page = 1 }) → ⊥ }
    ensures all_queued { HasMetFull two_seats before_full (record after_full { seen = long_3 ∷ long_3 ∷ (record long_5 { queued = 1 }) ∷ [] }) long_note (record full_5 { queued = 1 }) → ⊥ }
    ensures committed { HasMetFull two_seats before_full (record after_full { seen = long_3 ∷ long_3 ∷ long_3 ∷ [] }) long_note full_5 → ⊥ }
    ensures another_number { HasMetFull two_seats before_full after_full long_note (record full_5 { xid = 6 }) → ⊥ }
    ensures not_told { HasMetFull two_seats before_full (record after_full { told = 5 }) long_note full_5 → ⊥ }
    ensures not_signalled { HasMetFull two_seats before_full (record after_full { signalled = 5 }) long_note full_5 → ⊥ }
    ensures not_taken { HasMetFull two_seats before_full (record after_full { notes_left = 6 }) long_note full_5 → ⊥ }
    ensures looked_once { HasMetFull two_seats before_full (record after_full { advance = record met_one { second = [] } }) long_note full_5 → ⊥ }
    ensures seat_left_out { HasMetFull two_seats before_full (record after_full { advance = record met_one { first = Some 3 ∷ [] } }) long_note full_5 → ⊥ }
    ensures own_seat_met { HasMetFull two_seats before_full both_after_full long_note full_5 → ⊥ }
    // Its own seat is met with another mark than it has.
    ensures own_seat_elsewhere { HasMetFull two_seats (record both_before_full { mark = Some 4 }) (record both_after_full { mark = Some 4 }) long_note full_5 → ⊥ }
    ensures own_seat_left_out { HasMetFull two_seats both_before_full (record both_after_full { advance = met_one }) long_note full_5 → ⊥ }
    ensures not_named { HasMetFull two_seats before_full (record after_full { named = [] }) long_note full_5 → ⊥ }
    // Session 1 has read between the looks.
    ensures floor_of_the_second_look { HasMetFull two_seats before_full (record after_full { named = (1, 3) ∷ (1, 4) ∷ []; advance = met_reader }) long_note (record full_5 { floor_mark = 4 }) → ⊥ }
    ensures not_met_first { HasMetFull two_seats both_before_full (record both_after_full { advance = record met_both { first = Some 3 ∷ None ∷ [] } }) long_note full_5 → ⊥ }
    ensures not_met_second { HasMetFull two_seats both_before_full (record both_after_full { advance = record met_both { second = Some 3 ∷ None ∷ [] } }) long_note full_5 → ⊥ }
    // The head has moved since the advance.
    ensures a_batch_later { HasMetFull two_seats before_full (record after_full { advance = no_advance }) long_note full_5 → ⊥ }
    // The advance of an earlier call, in which nobody was looked at anew.
    ensures an_earlier_advance { HasMetFull two_seats (record before_full { named = after_full.named; advance = met_one }) after_full long_note full_5 → ⊥ }
{}

/// Session 1 hears what session 2 knows and was told.
pub fn meet()
    ensures met { HasHeard published listening heard }
    ensures nothing_new { HasHeard listening published published }
    ensures not_told { HasHeard published listening (record heard { told = 3 }) → ⊥ }
    ensures told_more { HasHeard published listening (record heard { told = 5 }) → ⊥ }
    ensures not_signalled { HasHeard published listening (record heard { signalled = 3 }) → ⊥ }
    ensures owes_nothing { HasHeard published listening (record heard { owes = false }) → ⊥ }
    ensures not_seen { HasHeard published listening (record heard { seen = [] }) → ⊥ }
    ensures loses_seen { HasHeard listening published (record published { seen = [] }) → ⊥ }
    ensures loses_told { HasHeard listening published (record published { told = 3; signalled = 3 }) → ⊥ }
    ensures mark_moved { HasHeard published listening (record heard { mark = Some 4 }) → ⊥ }
    ensures takes_its_own { HasHeard published listening (record heard { own = 3 ∷ [] }) → ⊥ }
{}

/// The two passes are gathered.
pub fn gather()
    ensures met { Gathered (last_1 ∷ last_2 ∷ []) 1 }
    ensures one_too_few { Gathered (last_1 ∷ last_2 ∷ []) 0 → ⊥ }
    ensures one_too_many { Gathered (last_1 ∷ last_2 ∷ []) 2 → ⊥ }
    // The second is the session's own too, and its pass knows nothing of the first.
    ensures published_twice { Gathered (last_1 ∷ (record last_2 { seen = tx_3 ∷ tx_3 ∷ []; own = 4 ∷ []; told = 5 }) ∷ []) 2 → ⊥ }
    ensures not_its_own { Gathered (last_1 ∷ (record last_2 { own = [] }) ∷ []) 1 → ⊥ }
    ensures of_another { Gathered ((record last_1 { own = 3 ∷ [] }) ∷ last_2 ∷ []) 1 → ⊥ }
    ensures own_not_seen { Gathered (last_1 ∷ (record last_2 { seen = [] }) ∷ []) 1 → ⊥ }
    ensures two_journals { Gathered (last_1 ∷ (record last_2 { seen = (record tx_3 { fate = Aborted }) ∷ [] }) ∷ []) 1 → ⊥ }
    ensures not_all_queued { Gathered ((record last_1 { seen = (record tx_3 { queued = 1 }) ∷ [] }) ∷ (record last_2 { seen = (record tx_3 { queued = 1 }) ∷ [] }) ∷ []) 1 → ⊥ }
    ensures of_another_database { Gathered ((record last_1 { seen = (record tx_3 { db = 2 }) ∷ [] }) ∷ (record last_2 { seen = (record tx_3 { db = 2 }) ∷ [] }) ∷ []) 1 → ⊥ }
    ensures told_more { Gathered ((record last_1 { told = 5 }) ∷ last_2 ∷ []) 1 → ⊥ }
    ensures found_another_number { Gathered ((record last_1 { found = (0, 3) ∷ [] }) ∷ last_2 ∷ []) 1 → ⊥ }
    ensures found_another_flag { Gathered ((record last_1 { found = (1, 4) ∷ [] }) ∷ last_2 ∷ []) 1 → ⊥ }
    ensures named_elsewhere { Gathered (last_1 ∷ (record last_2 { named = (1, 5) ∷ [] }) ∷ []) 1 → ⊥ }
    ensures named_another { Gathered (last_1 ∷ (record last_2 { named = (2, 3) ∷ [] }) ∷ []) 1 → ⊥ }
    ensures named_nobody { Gathered (last_1 ∷ (record last_2 { named = (3, 3) ∷ [] }) ∷ []) 1 → ⊥ }
{}

/// What the clauses of one call allow, since a pass can't tell what others did: a read that learns of nothing new, a wake that was
/// set for nothing, and an earlier transaction of the session itself that its pass knows nothing of. The last is found as the passes
/// are gathered.
pub fn one_pass_alone()
    ensures reads_nothing { HasRead quiet (record quiet { marks = 3 ∷ 3 ∷ 3 ∷ [] }) (codes "c" ∷ []) 3 [] [] }
    ensures woken_for_nothing { HasWoken One quiet (record quiet { owes = true; wake_look = Some (true, false) }) true }
    ensures published_twice { HasPublished opened_2 (record published { seen = tx_3 ∷ tx_3 ∷ []; own = 4 ∷ []; told = 5; signalled = 5 }) both_notes 4 }
{}

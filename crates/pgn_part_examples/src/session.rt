//! Examples in numbers of what a step did and came to, and beside each what is refused. The passes are those of `pgn_hub`'s examples:
//! session 1 listens, the flag 0 was raised with the number 4, and nobody raised the flag 1.
ghost use Rattle.std.specs.Prelude.{◌≡◌, [], ◌∷◌, None};
ghost use Rattle.pgn_part_examples.specs.Hub.{both_notes, opened_2, published, listening, woken_1, found_0, found_none};
ghost use Rattle.pgn_session.specs.Steps.{HasTurned, ShowsLine, AnswersLine, Waits, Ends, StandsStill};
ghost use Rattle.pgn_session.specs.Sleep.{slept_doing, slept_for};
ghost use Rattle.pgn_session.specs.Feed.{EndsByQuit, fed};
ghost use Rattle.pgn_part_examples.specs.Session.{two_sessions, begin_line, commit_line, quit_line, quits};
ghost use Rattle.pgn_session.specs.Open.{RunsCommand, ShowsRead};

use pgn_base::Tag;
use pgn_model::Item;
use pgn_session::{Doing, Step};

/// A turn of an await, with a patience of 3.
pub fn turn()
    ensures waits { HasTurned 1 1 3 listening found_none [] [] (Doing.Awaiting 1 1) Step.Waiting }
    ensures finds { HasTurned 0 2 3 listening found_0 [] (Item.Found 4 ∷ []) Doing.Lines Step.Did }
    ensures times_out { HasTurned 1 3 3 listening found_none [] (Item.TimedOut 3 ∷ []) Doing.Lines Step.Did }
    ensures too_early { HasTurned 1 1 3 listening found_none [] (Item.TimedOut 1 ∷ []) Doing.Lines Step.Did → ⊥ }
    ensures never { HasTurned 1 3 3 listening found_none [] [] (Doing.Awaiting 1 3) Step.Waiting → ⊥ }
    ensures without_a_look { HasTurned 1 3 3 listening listening [] (Item.TimedOut 3 ∷ []) Doing.Lines Step.Did → ⊥ }
    ensures at_another_flag { HasTurned 0 1 3 listening found_none [] [] (Doing.Awaiting 0 1) Step.Waiting → ⊥ }
{}

/// What the second line shows: an answer in which the hub has no part, and one in which it has.
pub fn line_shown()
    ensures answered { ShowsLine 2 listening listening [] (Item.Line 2 ∷ Item.Reply Tag.Begin None ∷ []) }
    ensures unanswered { ShowsLine 2 listening listening [] (Item.Line 2 ∷ []) }
    ensures sent { ShowsLine 2 opened_2 published [] (Item.Line 2 ∷ Item.Publish 3 both_notes ∷ Item.Reply Tag.Notify None ∷ []) }
    ensures takes_its_wake { ShowsLine 2 listening woken_1 [] (Item.Line 2 ∷ Item.Reply Tag.Begin None ∷ []) → ⊥ }
    ensures takes_it_at_an_empty_line { ShowsLine 2 listening woken_1 [] (Item.Line 2 ∷ []) → ⊥ }
    ensures another_line { ShowsLine 2 listening listening [] (Item.Line 3 ∷ Item.Reply Tag.Begin None ∷ []) → ⊥ }
    ensures two_lines { ShowsLine 2 listening listening [] (Item.Line 2 ∷ Item.Line 3 ∷ []) → ⊥ }
{}

/// Whether a line got its whole answer, where so many lines have begun before and after.
pub fn answered()
    ensures at_once { AnswersLine Doing.Lines 2 Doing.Lines 3 }
    ensures at_last { AnswersLine (Doing.Awaiting 1 1) 3 Doing.Lines 3 }
    ensures begun { AnswersLine Doing.Lines 2 (Doing.Awaiting 1 1) 3 → ⊥ }
    ensures waiting { AnswersLine (Doing.Awaiting 1 1) 3 (Doing.Awaiting 1 2) 3 → ⊥ }
    ensures end { AnswersLine Doing.Lines 3 (Doing.Ending 0 0) 3 → ⊥ }
{}

/// Whether a session waits, with a patience of 3, and whether it is over. The end flags are 0 and 1.
pub fn waiting()
    ensures awaits { Waits two_sessions 3 listening found_none (Doing.Awaiting 1 1) }
    ensures waits_on { Waits two_sessions 3 listening found_none (Doing.Ending 1 2) }
    ensures spent { Waits two_sessions 3 listening found_none (Doing.Awaiting 1 3) → ⊥ }
    ensures did_not_look { Waits two_sessions 3 listening listening (Doing.Awaiting 1 1) → ⊥ }
    ensures at_another_flag { Waits two_sessions 3 listening found_none (Doing.Ending 0 2) → ⊥ }
    ensures patience_spent { Ends two_sessions 3 (Doing.Ending 1 2) found_0 }
    ensures one_flag_missing { Ends two_sessions 3 (Doing.Ending 1 1) found_0 → ⊥ }
    ensures between_lines { Ends two_sessions 3 Doing.Lines found_0 → ⊥ }
{}

/// What a sleep counts, with a patience of 100.
pub fn slept()
    ensures counts { slept_doing 100 50 (Doing.Awaiting 1 3) ≡ Doing.Awaiting 1 52 }
    ensures at_the_end { slept_doing 100 50 (Doing.Ending 2 3) ≡ Doing.Ending 2 52 }
    ensures leaves_a_look { slept_doing 100 200 (Doing.Awaiting 1 3) ≡ Doing.Awaiting 1 99 }
    ensures no_time { slept_doing 100 0 (Doing.Awaiting 1 3) ≡ Doing.Awaiting 1 3 }
    ensures between_lines { slept_doing 100 50 Doing.Lines ≡ Doing.Lines }
    ensures counts_the_next_look { slept_doing 100 50 (Doing.Awaiting 1 3) ≡ Doing.Awaiting 1 53 → ⊥ }
    ensures leaves_none { slept_doing 100 200 (Doing.Awaiting 1 3) ≡ Doing.Awaiting 1 100 → ⊥ }
    ensures counts_nothing { slept_doing 100 50 (Doing.Awaiting 1 3) ≡ Doing.Awaiting 1 3 → ⊥ }
{}

/// A script that quits at once, and what it is once lines were put in.
pub fn fed_script()
    ensures ends { EndsByQuit quits.lines }
    ensures before_the_quit { (fed quits begin_line).lines ≡ begin_line ∷ quit_line ∷ [] }
    ensures in_order { (fed (fed quits begin_line) commit_line).lines ≡ begin_line ∷ commit_line ∷ quit_line ∷ [] }
    ensures may_notify_as_often { (fed quits begin_line).note_lines ≡ 1 }
    ensures behind_the_quit { (fed quits begin_line).lines ≡ quit_line ∷ begin_line ∷ [] → ⊥ }
    ensures no_line { EndsByQuit [] → ⊥ }
    ensures goes_on_behind_it { EndsByQuit (quit_line ∷ begin_line ∷ []) → ⊥ }
{}

/// For how long a session sleeps, with a patience of 100. There are two sessions.
pub fn sleeping()
    ensures as_asked { slept_for two_sessions 100 50 (Doing.Awaiting 1 3) ≡ 50 }
    ensures as_patience_is_left { slept_for two_sessions 100 200 (Doing.Awaiting 1 3) ≡ 97 }
    ensures at_the_end { slept_for two_sessions 100 50 (Doing.Ending 1 3) ≡ 50 }
    ensures all_found { slept_for two_sessions 100 50 (Doing.Ending 2 3) ≡ 0 }
    ensures between_lines { slept_for two_sessions 100 50 Doing.Lines ≡ 0 }
    ensures over { slept_for two_sessions 100 50 Doing.Over ≡ 0 }
    ensures longer { slept_for two_sessions 100 50 (Doing.Awaiting 1 3) ≡ 51 → ⊥ }
    ensures past_patience { slept_for two_sessions 100 200 (Doing.Awaiting 1 3) ≡ 98 → ⊥ }
    ensures at_no_flag { slept_for two_sessions 100 50 Doing.Lines ≡ 50 → ⊥ }
{}

/// Where a session stands after a step that was refused.
pub fn refused()
    ensures handed_out { StandsStill Doing.Lines (Doing.Committing [] [] Tag.Commit) }
    ensures looked { StandsStill (Doing.Awaiting 1 1) (Doing.Awaiting 1 2) → ⊥ }
    ensures at_the_end { StandsStill (Doing.Ending 0 0) (Doing.Ending 0 0) → ⊥ }
{}

/// What is put into an open script, and what is read before it and behind it: a line with a command, and a read at most.
pub fn taken()
    ensures runs { RunsCommand begin_line }
    ensures quits { RunsCommand quit_line → ⊥ }
    ensures nothing { ShowsRead (Item.Line 1 ∷ []) (Item.Line 1 ∷ []) }
    ensures read { ShowsRead (Item.Line 1 ∷ []) (Item.Line 1 ∷ Item.Read 3 4 [] ∷ []) }
    ensures line { ShowsRead [] (Item.Line 1 ∷ []) → ⊥ }
    ensures two_reads { ShowsRead [] (Item.Read 3 4 [] ∷ Item.Read 4 5 [] ∷ []) → ⊥ }
    ensures forgets { ShowsRead (Item.Line 1 ∷ []) [] → ⊥ }
{}

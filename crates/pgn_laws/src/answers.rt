ghost use Rattle.pgn_answers.specs.laws.Savepoints.{RolledBackCuts, ReleasedKeeps, SurvivesRolledBack, SurvivesReleased, SurvivesSaved, SurvivesActed, SurvivesNoted, LiveIsSaved, LiveHasSavepoint, RolledBackKeepsSavepoint, RolledBackOfNone, ReleasedOfNone, FirstsInOrder, FirstsDiffer, FirstsHaveAll, FirstsPush, FirstsTwice, LiveAfterChange, LiveSaved, LiveActed, LiveNew, LiveRepeated, LiveRolledBack, LiveReleased, LiveTwice, LiveHasNames, LiveHasActions, LiveHasFirsts};
ghost use Rattle.pgn_answers.specs.laws.Answers.{TableIsTotal, NothingFailsOutside, BlocksBegin, BlocksEnd, BlocksFail, WaysOut, WaysOn, OnlyEmptyIsSilent, ChannelsAreCounted, WhatCommits};

/// What a ROLLBACK TO cuts and what a RELEASE keeps, said by the last savepoint of the name.
#[tactic(auto, using(crate::proofs::SavepointLaws::savepoint_laws))]
pub fn rolled_back_and_released()
    ensures cuts { RolledBackCuts }
    ensures keeps { ReleasedKeeps }
{}

/// What survives one more change.
#[tactic(auto, using(crate::proofs::SavepointLaws::savepoint_laws))]
pub fn survives_one_more()
    ensures rolled_back { SurvivesRolledBack }
    ensures released { SurvivesReleased }
    ensures saved { SurvivesSaved }
    ensures acted { SurvivesActed }
    ensures noted { SurvivesNoted }
{}

/// A savepoint is live where it survives, and stays live after a ROLLBACK TO it.
#[tactic(auto, using(crate::proofs::SavepointLaws::savepoint_laws))]
pub fn live_savepoints()
    ensures saved { LiveIsSaved }
    ensures live { LiveHasSavepoint }
    ensures kept { RolledBackKeepsSavepoint }
{}

/// ROLLBACK TO and RELEASE of a name that no live savepoint has change nothing.
#[tactic(auto, using(crate::proofs::SavepointLaws::savepoint_laws))]
pub fn no_such_savepoint()
    ensures rolled_back { RolledBackOfNone }
    ensures released { ReleasedOfNone }
{}

/// First occurrences keep their order, each stands once, and all that stood are there.
#[tactic(auto, using(crate::proofs::SavepointLaws::firsts_laws))]
pub fn first_occurrences()
    ensures in_order { FirstsInOrder }
    ensures once { FirstsDiffer }
    ensures all { FirstsHaveAll }
{}

/// One more notification is a first occurrence where it has not stood before, and first occurrences have no repeats to drop.
#[tactic(auto, using(crate::proofs::SavepointLaws::firsts_laws))]
pub fn one_more_occurrence()
    ensures push { FirstsPush }
    ensures twice { FirstsTwice }
{}

/// What is live, without repeats, takes one more change in, whatever led to it.
#[tactic(auto, using(crate::proofs::SavepointLaws::live_laws))]
pub fn live_after_change()
    ensures { LiveAfterChange }
{}

/// What is live leads to itself: nothing in it is left to cut, to release or to drop.
#[tactic(auto, using(crate::proofs::SavepointLaws::live_laws))]
pub fn live_twice()
    ensures { LiveTwice }
{}

/// What is live after a savepoint, an action, a new and a repeated notification.
#[tactic(auto, using(crate::proofs::SavepointLaws::live_laws))]
pub fn live_one_more()
    ensures saved { LiveSaved }
    ensures acted { LiveActed }
    ensures new { LiveNew }
    ensures repeated { LiveRepeated }
{}

/// What is live after a ROLLBACK TO and a RELEASE.
#[tactic(auto, using(crate::proofs::SavepointLaws::live_laws))]
pub fn live_after_savepoints()
    ensures rolled_back { LiveRolledBack }
    ensures released { LiveReleased }
{}

/// What is live has all that a commit and the answers ask for: the names, the actions, and the notifications without repeats.
#[tactic(auto, using(crate::proofs::SavepointLaws::live_laws))]
pub fn live_is_enough()
    ensures names { LiveHasNames }
    ensures actions { LiveHasActions }
    ensures notes { LiveHasFirsts }
{}

/// Each command has one answer in each state, and leads to one of the three states.
#[tactic(auto, using(crate::proofs::AnswerLaws::answer_laws))]
pub fn table_is_total()
    ensures { TableIsTotal }
{}

/// Outside a block a command may open one, and never fails one.
#[tactic(auto, using(crate::proofs::AnswerLaws::answer_laws))]
pub fn outside_a_block()
    ensures opens { BlocksBegin }
    ensures never_fails { NothingFailsOutside }
{}

/// COMMIT and ROLLBACK end a block, and it fails where a command in it is refused.
#[tactic(auto, using(crate::proofs::AnswerLaws::answer_laws))]
pub fn in_a_block()
    ensures ends { BlocksEnd }
    ensures fails { BlocksFail }
{}

/// A failed block ends by COMMIT or ROLLBACK, and goes on by ROLLBACK TO a live savepoint; by nothing else.
#[tactic(auto, using(crate::proofs::AnswerLaws::answer_laws))]
pub fn in_a_failed_block()
    ensures ways_out { WaysOut }
    ensures ways_on { WaysOn }
{}

/// Only an empty line is not answered.
#[tactic(auto, using(crate::proofs::AnswerLaws::answer_laws))]
pub fn only_empty_is_silent()
    ensures { OnlyEmptyIsSilent }
{}

/// LISTEN, UNLISTEN, NOTIFY and pg_notify outside a block commit, and COMMIT in a block that has not failed; nothing else does.
#[tactic(auto, using(crate::proofs::AnswerLaws::answer_laws))]
pub fn what_commits()
    ensures { WhatCommits }
{}

/// The channels that are shown are those listened to, and their number is in the answer.
#[tactic(auto, using(crate::proofs::AnswerLaws::answer_laws))]
pub fn channels_are_counted()
    ensures { ChannelsAreCounted }
{}

ghost use Rattle.pgn_model.specs.laws.Text.{TextHasLines};
ghost use Rattle.pgn_laws.specs.Walk.{LawfulPushes, LawfulPrefix, LawfulGrows};
ghost use Rattle.pgn_model.specs.laws.Growing.{ShownGrows, ShownOver, FullGrows, ToldWithin, MarksWithin, MarkWithin, StateWithin, LawfulShows, UpToDateGrows, FreshSoFarGrows, TraceOkGrows, FreshGrows};
ghost use Rattle.pgn_model.specs.laws.NextLine.{EmptyStands, StandsFreshGrows, HoldsGrows, HoldsShows, HoldsWithin, ComesNextGrows, LineReplies, LineRefuses, LineIsSilent, LineIsKept, NoListOutside, BlockCommits, OneCommits, CommitsNextGrows, LineCommits, LineMeetsFull, LastIsPublished, LastMetFull, CommitFinishes, FullFinishes, CommitKeepsFull, FullKeepsFull, LineGivesChannels, LineGivesUsage, LineSignals, LineAwaits, AwaitFinds, AwaitTimesOut, LineQuits, IdleReads, AwaitReads, EndReads, NoListenerIsUpToDate, ReaderIsUpToDate, QuietIsUpToDate, EndIsLawful, EndIsFresh};

/// Lawful traces.
#[tactic(auto, using(pgn_model::proofs::WalkLaws::walk_laws))]
pub fn walk()
    // One more item at the end of a lawful trace is one more fact.
    ensures pushes { LawfulPushes }
    // A prefix of a lawful trace is lawful so far.
    ensures prefix { LawfulPrefix }
    // What is lawful over a journal is lawful over a longer one.
    ensures grows { LawfulGrows }
{}

/// A trace as the journal grows: what holds of it over a journal holds over a longer one.
pub fn growing()
    // Numbers that are shown within a bound are within each greater one.
    ensures shown_grows { ShownGrows }
    // Where the journal grows, so does the bound.
    ensures shown_over { ShownOver }
    // A queue that was full stays so over a longer journal.
    ensures full_grows { FullGrows }
    // A lawful trace whose numbers are within the journal tells the session nothing past it.
    ensures told_within { ToldWithin }
    // No mark of a lawful trace is past the journal.
    ensures marks_within { MarksWithin }
    // Nor is the mark at its end.
    ensures mark_within { MarkWithin }
    // All of it of a state that items lead to.
    ensures state_within { StateWithin }
    // A lawful trace shows numbers within the journal alone, if each full queue that it shows was full and each flag was found with a
    // number within it.
    ensures lawful_shows { LawfulShows }
    // What is up to date, over a journal that has all that was told, is so over a longer one.
    ensures up_to_date_grows { UpToDateGrows }
    // Items that left no read out so far left none out over a longer journal.
    ensures fresh_so_far_grows { FreshSoFarGrows }
    // A lawful trace is lawful over a longer journal.
    ensures trace_ok_grows { TraceOkGrows }
    // A lawful trace that left no read out left none out over a longer journal.
    ensures fresh_grows { FreshGrows }
{}

/// What a session's next line adds to its trace, and what a read and the script's end add.
pub fn next_line()
    // Before the first item a trace is lawful so far, over any journal.
    ensures empty_stands { EmptyStands }
    // The journal may grow under a trace that is lawful so far and left no read out.
    ensures stands_fresh_grows { StandsFreshGrows }
    // It may grow under all that a session keeps of its trace so far.
    ensures holds_grows { HoldsGrows }
    // No number is shown that is past the journal.
    ensures holds_shows { HoldsShows }
    // Nor was the session told of one, nor stood it at one.
    ensures holds_within { HoldsWithin }
    // The journal may grow before the next line begins.
    ensures comes_next_grows { ComesNextGrows }
    // A command that is answered by its tag alone.
    ensures replies { LineReplies }
    // A command that is refused.
    ensures refuses { LineRefuses }
    // A line that is not answered.
    ensures is_silent { LineIsSilent }
    // A command in a block that is kept for its commit.
    ensures is_kept { LineIsKept }
    // Where no block is open, nothing is in its list.
    ensures no_list_outside { NoListOutside }
    // COMMIT in a block commits what its list has left.
    ensures block_commits { BlockCommits }
    // One command outside a block commits what it puts into the list.
    ensures one_commits { OneCommits }
    // The journal may grow before a commit.
    ensures commits_next_grows { CommitsNextGrows }
    // A commit: of one command outside a block, and of a block.
    ensures commits { LineCommits }
    // A commit that meets a full queue.
    ensures meets_full { LineMeetsFull }
    // The session's transaction is the journal's last, committed.
    ensures last_is_published { LastIsPublished }
    // It is the journal's last, aborted.
    ensures last_met_full { LastMetFull }
    // What a trace shows as finished after a commit.
    ensures commit_finishes { CommitFinishes }
    // What it shows as finished after a commit that met a full queue.
    ensures full_finishes { FullFinishes }
    // The full queues that a trace shows after a commit.
    ensures commit_keeps_full { CommitKeepsFull }
    // The full queues that it shows after a commit that met one.
    ensures full_keeps_full { FullKeepsFull }
    // The channels that the session listens to.
    ensures gives_channels { LineGivesChannels }
    // The queue's usage.
    ensures gives_usage { LineGivesUsage }
    // A flag is raised.
    ensures signals { LineSignals }
    // A flag is to be awaited.
    ensures awaits { LineAwaits }
    // The awaited flag is found.
    ensures finds { AwaitFinds }
    // The patience is spent.
    ensures times_out { AwaitTimesOut }
    // The session quits.
    ensures quits { LineQuits }
    // A read between lines.
    ensures idle_reads { IdleReads }
    // A read while a flag is awaited.
    ensures await_reads { AwaitReads }
    // A read at the script's end.
    ensures end_reads { EndReads }
    // Who is no listener has nothing to read.
    ensures no_listener { NoListenerIsUpToDate }
    // Who has read all that it was told of has no more to read.
    ensures reader { ReaderIsUpToDate }
    // Nor has who need not read up to a number that is no less than what it was told of.
    ensures quiet { QuietIsUpToDate }
    // At the script's end the trace is lawful.
    ensures end_is_lawful { EndIsLawful }
    // And it left no read out.
    ensures end_is_fresh { EndIsFresh }
{}

/// The output as lines.
pub fn text()
    // Cut at each LF, the output of a sound scenario gives its lines, where no LF stands in a name or notification that it shows.
    ensures has_lines { TextHasLines }
{}

ghost use Rattle.pgn_messages.specs.TurnLaws.{AnswersAreMessages, OneDiscardIsTold, OneEndIsTold, OneQueryIsTold, OneSettledIsTold, OthersAreAskedFor, ReadsAreHeard, SaidStays, ScriptRises, StandsBehindLine, TellingWalks, TurnsGrow, TurnsWalk};

/// How turns grow.
pub fn growth()
    // A turn more adds its own lines, items and signs, and nothing else.
    ensures turns_grow { TurnsGrow }
    // What was said stays.
    ensures said_stays { SaidStays }
    // A teller stands where the walk does.
    ensures telling_walks { TellingWalks }
{}

/// What turns make of a trace.
pub fn trace()
    // A walk over the turns is the walk over the trace.
    ensures turns_walk { TurnsWalk }
    // An item that is no read stands in a turn that was asked for.
    ensures others_are_asked_for { OthersAreAskedFor }
    // In the answer to a query it stands behind the query's line.
    ensures stands_behind_line { StandsBehindLine }
{}

/// All that may be told.
pub fn telling()
    // Where nothing is asked: what is heard of the reads.
    ensures reads_are_heard { ReadsAreHeard }
    // Of one query: its answer, whole, and what is heard of reads.
    ensures one_query_is_told { OneQueryIsTold }
    // Of one end: why the server ends the conversation, if it does, and the end.
    ensures one_end_is_told { OneEndIsTold }
    // Of one thing that is settled: its answer, whole, and what is heard of reads.
    ensures one_settled_is_told { OneSettledIsTold }
    // Of one `DISCARD ALL`: its answer, whole, and what is heard of reads.
    ensures one_discard_is_told { OneDiscardIsTold }
    // Where each turn answers a query as usual: the messages of the trace.
    ensures answers_are_messages { AnswersAreMessages }
{}

/// The script of what is asked.
pub fn script()
    // The numbers of its lines rise, and the `\quit` is its last.
    ensures { ScriptRises }
{}

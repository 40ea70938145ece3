ghost use Rattle.pgn_sorted.specs.Laws.{LegalHasLines, SessionsHaveLines, LiveIsSorted, LiveIsUnique};

/// No LF stands in a name or notification that a legal run shows: its text, cut at each LF, gives its lines.
pub fn legal_has_lines()
    ensures { LegalHasLines }
{}

/// The lines of a live output can be sorted back, in whatever order those of different sessions came.
pub fn live_is_sorted()
    // Those behind a session's number are the lines of its trace's items, in their order.
    ensures sessions { SessionsHaveLines }
    // Sorted, the output is the text of the run.
    ensures text { LiveIsSorted }
{}

/// Two legal runs of one sound scenario with the same live output have the same journal and the same traces.
pub fn live_is_unique()
    ensures { LiveIsUnique }
{}

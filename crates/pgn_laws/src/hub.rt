ghost use Rattle.pgn_hub.specs.Laws.{ReadGrows, WokenGrows, FullGrows, MeasuredGrows, CallsKeepWithin, SeatsStay, MarksFollow, SetsFollow, NotesFollow, TransactionsFollow, HoldersAreNamed, OwnFloors, LastReads};

/// What a clause says over as much of the journal as is known stays so as more of it becomes known.
pub fn more_of_the_journal()
    // What a read has delivered is due over a longer journal too.
    ensures read { ReadGrows }
    // Who was not woken need not read up to what it was told of, over a longer journal too.
    ensures woken { WokenGrows }
    // Why the queue was full stays so.
    ensures full { FullGrows }
    // What is in use stays so.
    ensures measured { MeasuredGrows }
{}

/// What always holds of a pass stays so.
pub fn within()
    ensures { CallsKeepWithin }
{}

/// What each call leaves for the conditions of the next.
pub fn conditions()
    // The passes that are opened, and each of them after any call, are those that can be gathered.
    ensures seats { SeatsStay }
    // After each call it is known whether the session listens.
    ensures marks { MarksFollow }
    // After each call it is known which channels the listener has told.
    ensures sets { SetsFollow }
    // A transaction takes its notifications from those that are left.
    ensures notes { NotesFollow }
{}

/// A transaction stands at its number, after all that the pass was told of and has read.
pub fn transactions()
    ensures { TransactionsFollow }
{}

/// The floor of a full queue and of a usage.
pub fn floors()
    // Who holds the floor is named with the floor mark.
    ensures named { HoldersAreNamed }
    // A listener's own mark is no lower than the floor.
    ensures own { OwnFloors }
{}

/// A listener that has read up to what every pass was told of has read the whole journal.
pub fn last_reads()
    ensures { LastReads }
{}

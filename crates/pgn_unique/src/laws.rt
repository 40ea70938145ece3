ghost use Rattle.pgn_unique.specs.Laws.{JournalIsShort, LegalHasJournal, JournalIsUnique, TextIsUnique, NoTextBegins};

/// The journal of a legal run of a sound scenario has at most 65,536 transactions, and each at most 65,536 notifications: a scenario
/// has no more lines that notify.
pub fn journal_is_short()
    ensures { JournalIsShort }
{}

/// The lines of a journal give it back.
pub fn journal_is_unique()
    // The journal of a legal run of a sound scenario is one of the scenario: each transaction is finished and of some section, and it is
    // short.
    ensures legal { LegalHasJournal }
    // Two journals of one sound scenario with the same lines are the same, whatever follows the lines, and the same follows.
    ensures unique { JournalIsUnique }
{}

/// The text of a run gives the run back.
pub fn text_is_unique()
    // Two legal runs of one sound scenario with the same text have the same journal and the same traces.
    ensures unique { TextIsUnique }
    // Where the text of a legal run begins that of another, it is the whole of it.
    ensures no_beginning { NoTextBegins }
{}

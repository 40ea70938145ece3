ghost use Rattle.pgn_reading.specs.Laws.{LegalShowsJournal, OthersAreBare, BareHasNoNote, LegalIsLegalBare, BareHasSameLines, BareHasSameText, BareHasSameBrief};

/// The traces of a legal run show its journal.
pub fn legal_shows_journal()
    ensures { LegalShowsJournal }
{}

/// What of a run is bare.
pub fn bare()
    // What shows no transaction as finished is as it was.
    ensures others { OthersAreBare }
    // What shows one has none of its notifications.
    ensures none { BareHasNoNote }
    // The traces of each legal run can be bare.
    ensures legal { LegalIsLegalBare }
{}

/// What is bare shows the same.
pub fn bare_shows_the_same()
    // The lines of an item.
    ensures lines { BareHasSameLines }
    // The output of a run.
    ensures text { BareHasSameText }
    // The summary of a drill.
    ensures brief { BareHasSameBrief }
{}

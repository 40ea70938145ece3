ghost use Rattle.pgn_reading.specs.WalkLaws.{ReadShowsSame, ReadIsCompleted, ComesFirst, ComesOn, ComesToEnd, FreshFirst, FreshOn, FreshComes, OwnIsRead, OwnIsSeen, LawfulIsNotRefused, FreshIsNotLeftOut, FreshIsUpToDate, LawfulIsFinished};
ghost use Rattle.pgn_reading.specs.BlameLaws.{SpotlessFirst, SpotlessOn, BlamedWithin, BlamedFromBefore, BlamedFromItem, BlamedFromLast, BlamedFromEnd, NothingBlamed, BlamedBehind, LeastInFirst, BlamedApart, BlamedLater, EntryWithin, EntryFrom, NoEntryBlamed, ReadingHasForm, LeastInForm, LeastInJournal, LeastInTraces};
ghost use Rattle.pgn_reading.specs.GoesOnLaws.{BeginsShorter, BeginsWhole, JournalGoesOn, EntryGoesOn, SectionGoesOn};
ghost use Rattle.pgn_reading.specs.WholeLaws.{RaisedInAll, StoodInAll, FoundInAll, NamedInAll, CompletedShowsSame, WalkedIsLegal, WalkedIsLegalText};
ghost use Rattle.pgn_reading.specs.ReadableLaws.{LinesAreOne, ReadableHasLines, ReadableIsOne};
ghost use Rattle.pgn_reading.specs.ShownLaws.{MarksAreShown, NamedAreShown, RaisedAreShown, FoundAreShown, MarksAreRead, NamedAreRead, RaisedAreRead};

/// What is seen of a lawful trace, and what the walk adds to it.
pub fn seen()
    // What is seen of items has their lines.
    ensures same_lines { ReadShowsSame }
    // Lawful items are what is seen of them, with what the walk adds.
    ensures completed { ReadIsCompleted }
    // What is seen of items shows the same transactions as finished.
    ensures own { OwnIsSeen }
{}

/// The walk over a trace that was read, item by item, and what it shows at the end.
pub fn walk()
    // Before the first item it has come past none.
    ensures first { ComesFirst }
    // It comes past an item that is allowed.
    ensures on { ComesOn }
    // Where it comes past all items, and the script is done, the trace is lawful.
    ensures to_end { ComesToEnd }
    // Before the first item no read was left out.
    ensures fresh_first { FreshFirst }
    // Nor past an item before which none was left out.
    ensures fresh_on { FreshOn }
    // Where none was left out at any line nor at the end, the trace left none out.
    ensures fresh_to_end { FreshComes }
    // The trace shows the transactions as finished that were read of it.
    ensures own { OwnIsRead }
{}

/// What is seen of a lawful trace is not to blame.
pub fn lawful_is_not_blamed()
    // Each item is allowed where it is seen.
    ensures allowed { LawfulIsNotRefused }
    // Where the trace left no read out, none is left out before a line.
    ensures fresh { FreshIsNotLeftOut }
    // Nor at the end.
    ensures up_to_date { FreshIsUpToDate }
    // At the end the script is done.
    ensures finished { LawfulIsFinished }
{}

/// What items show by themselves is what the walk collects.
pub fn shown()
    // Marks.
    ensures marks { MarksAreShown }
    // Holders.
    ensures named { NamedAreShown }
    // Flags that are raised, along lawful items.
    ensures raised { RaisedAreShown }
    // Flags that are found.
    ensures found { FoundAreShown }
    // What was read and what the walk makes of it show the same marks.
    ensures marks_read { MarksAreRead }
    // The same holders.
    ensures named_read { NamedAreRead }
    // And raise the same flags.
    ensures raised_read { RaisedAreRead }
{}

/// An output has one reading.
pub fn readable()
    // The same lines are those of one readable journal and traces.
    ensures lines { LinesAreOne }
    // Cut after each LF, a text that is read gives its lines.
    ensures cut { ReadableHasLines }
    // A text is read as one journal and traces.
    ensures one { ReadableIsOne }
{}

/// Items past which the walk has come, and of which none is to blame.
pub fn spotless()
    // Of no item there is nothing to show.
    ensures first { SpotlessFirst }
    // One item more.
    ensures on { SpotlessOn }
{}

/// Which lines of a section are to blame: the first blame that a walk meets is the least.
pub fn blamed()
    // They are lines of the section, and not its head.
    ensures within { BlamedWithin }
    // Where the walk has come to an item, and none before it is to blame, none is before the last line before it.
    ensures from_before { BlamedFromBefore }
    // Nor before the item's first line, where no read was left out.
    ensures from_item { BlamedFromItem }
    // Where the walk has come past all items, and none is to blame, none is before the last line before the end.
    ensures from_last { BlamedFromLast }
    // Nor before the end, where no read was left out.
    ensures from_end { BlamedFromEnd }
    // And none is to blame where nothing is missing.
    ensures nothing { NothingBlamed }
{}

/// Which lines of all sections are to blame.
pub fn blamed_in_sections()
    // They lie behind the head of the first section.
    ensures behind { BlamedBehind }
    // The least of the first section is the least of all.
    ensures least_in_first { LeastInFirst }
    // They are those of the first sections, and those of the others.
    ensures apart { BlamedApart }
    // Those of the others are among them.
    ensures later { BlamedLater }
{}

/// Which lines of a journal are to blame.
pub fn blamed_in_journal()
    // They are lines of the journal, and not its first.
    ensures within { EntryWithin }
    // Where the transactions before one are as they have to be, none is before its first line.
    ensures from { EntryFrom }
    // And none is to blame where all are.
    ensures none { NoEntryBlamed }
{}

/// The first line of a text that is to blame.
pub fn least_blamed()
    // A text that is read breaks the form in no line.
    ensures has_form { ReadingHasForm }
    // Where a text breaks the form, it is that line.
    ensures in_form { LeastInForm }
    // Otherwise that of the first transaction that is not as it has to be.
    ensures in_journal { LeastInJournal }
    // Where all are, the least of all sections.
    ensures in_traces { LeastInTraces }
{}

/// What begins an output: from each place in one some output goes on.
pub fn goes_on()
    // The beginning of what begins an output does so too.
    ensures shorter { BeginsShorter }
    // All lines of an output begin one.
    ensures whole { BeginsWhole }
    // In the journal, before a transaction.
    ensures journal { JournalGoesOn }
    // In the journal, after some notifications of a transaction.
    ensures entry { EntryGoesOn }
    // In a section, after some items.
    ensures section { SectionGoesOn }
{}

/// What all traces bear out is what they show by themselves.
pub fn borne_out()
    // The flags that were raised.
    ensures raised { RaisedInAll }
    // The marks at which a session stood.
    ensures stood { StoodInAll }
    // The flags that were found.
    ensures found { FoundInAll }
    // The holders that were met.
    ensures named { NamedInAll }
{}

/// The run that is given back from what was read.
pub fn given_back()
    // What the walk adds has no line.
    ensures same_lines { CompletedShowsSame }
    // Where the walk comes past all items, and none is to blame, the completed traces are a legal run.
    ensures legal { WalkedIsLegal }
    // And the text that was read is its output.
    ensures legal_text { WalkedIsLegalText }
{}

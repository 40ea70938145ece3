ghost use Rattle.pgn_laws.specs.Begins.{BeginsAll, BeginsOn, BeginsContinued, BeginsWithTaken, BeginsShorter, BeginsWhole, BeginsAlike, BeginsHolds, BeginsMore};
ghost use Rattle.pgn_journal.specs.laws.Bytes.{AreBytes, SpelledLength, FillerLength, EntryLengths, SpellingReadsBack, NoSpellingBegins, NoSpellingIsFiller, FillerReadsBack};
ghost use Rattle.pgn_journal.specs.laws.Packing.{CellsGiveBytes, FirstPlace, NextPlace, LastPlace, IsPacked, PlaceFolds, LeavesRoom, PutTakes, PagesHold, NoteMoves, PlaceRises, PlaceBound, NotesInTurn, PlaceGrows, AbortedEnds, PlacesAgree, ImagesAgree, CellsOfEach, CellsApart};
ghost use Rattle.pgn_laws.specs.Due.{DueSplits, DueGrows};
ghost use Rattle.pgn_journal.specs.laws.Interest.{InterestCovers, NothingInCommon};
ghost use Rattle.pgn_journal.specs.laws.Near.{NearShrinks, NearItself, NearGrows};
ghost use Rattle.pgn_journal.specs.laws.QueueUse.{NoPageGrows, UsageGrows};
ghost use Rattle.pgn_journal.specs.laws.Pieces.{PiecesInTurn, ImageIsLaid, TransactionsArePacked, PiecesSplit, ImageDrops, JournalIsCut, PiecesGiveDue, PiecesGiveAllDue, FinishedQueueAll, JournalTellsFates, PiecesAreNumbered, NumbersRise, PiecesAreReadable, PieceAdvances, PieceHasBytes, PieceReadsBack, FirstCells, ThirdCell, NumbersGiveBytes, CellsHoldNumbers, FinishedAreWritten, OneMoreImage, DraftAtPageStart, FinishedAreDrafts, DraftsFinish, DraftsAreWritten, LongerAgrees, XidsGoOn};

/// Lists that begin other lists.
pub fn begins<T>()
    // The empty list and a list itself begin a list.
    ensures all { BeginsAll T }
    // A prefix of a prefix is a prefix.
    ensures on { BeginsOn T }
    // A list begins what continues it, and nothing else.
    ensures continued { BeginsContinued T }
    // A list begins with its first elements.
    ensures taken { BeginsWithTaken T }
    // A prefix is no longer.
    ensures shorter { BeginsShorter T }
    // A prefix that is as long is the whole.
    ensures whole { BeginsWhole T }
    // Of two prefixes of a list the shorter begins the longer.
    ensures alike { BeginsAlike T }
    // An element of a prefix stands at its place in the whole.
    ensures holds { BeginsHolds T }
    // A prefix and the next element are a prefix.
    ensures more { BeginsMore T }
{}

/// What is due to a reader.
#[tactic(auto, using(crate::proofs::DueLaws::due_laws))]
pub fn due()
    // What is due up to a number is what is due up to one before it, and then from there on.
    ensures splits { DueSplits }
    // A longer journal changes nothing of what is due before its new part.
    ensures grows { DueGrows }
{}

/// Which channels a reader may care for, as one number.
pub fn interests()
    // The interest of channels has the bit of each.
    ensures covers { InterestCovers }
    // Who has the bit of each of its channels, and no bit in common with a transaction's, listens to none of its notifications.
    ensures apart { NothingInCommon }
{}

/// How far a reader is behind.
pub fn near()
    // Who need not read up to a number need not read up to a smaller one, nor from a greater mark.
    ensures shrinks { NearShrinks }
    // Nobody need read up to its own mark, or to a number below it.
    ensures itself { NearItself }
    // A longer journal changes nothing of it.
    ensures grows { NearGrows }
{}

/// A full queue, and its usage.
pub fn queue_use()
    // Why the queue was full stays so over a longer journal.
    ensures no_page_grows { NoPageGrows }
    // What a usage shows stays so over a longer journal.
    ensures usage_grows { UsageGrows }
{}

/// The bytes of entries and fillers.
pub fn bytes()
    // The bytes of an entry are as many as its length says.
    ensures spelled_length { SpelledLength }
    // The bytes of a filler are as many as its length says.
    ensures filler_length { FillerLength }
    // An entry's length is a multiple of the alignment, no less than the least one, and a page holds it.
    ensures entry_lengths { EntryLengths }
    // What an entry and a filler are made of is bytes.
    ensures are_bytes { AreBytes }
    // An entry's bytes give its fields back, whatever follows them.
    ensures spelling_reads_back { SpellingReadsBack }
    // No entry's bytes begin another's.
    ensures no_spelling_begins { NoSpellingBegins }
    // No entry's bytes are a filler's, nor begin one.
    ensures no_spelling_is_filler { NoSpellingIsFiller }
    // A filler's bytes give its fields back, whatever follows them.
    ensures filler_reads_back { FillerReadsBack }
{}

/// Where the entries of a journal lie on the pages of the queue.
pub fn packing()
    // The first transaction begins at cell 0.
    ensures first_place { FirstPlace }
    // The next transaction begins where the arithmetic says that one ends.
    ensures next_place { NextPlace }
    // Past the journal's end a place is the end.
    ensures last_place { LastPlace }
    // The numbers of cells give back the bytes that fill them.
    ensures cells_give_bytes { CellsGiveBytes }
    // The arithmetic of places counts the cells of the image.
    ensures is_packed { IsPacked }
    // Where a transaction begins is counted by the arithmetic alone.
    ensures place_folds { PlaceFolds }
    // The next entry may always begin where one ends: at a multiple of the alignment, and the shortest fits on the page.
    ensures leaves_room { LeavesRoom }
    // A notification takes some cells, and at most those of two pages.
    ensures put_takes { PutTakes }
    // The rest of a page is the length of a filler, and a page holds each entry.
    ensures pages_hold { PagesHold }
    // A notification that does not fit on the rest of the page is a filler, and then the same on the next page.
    ensures note_moves { NoteMoves }
    // Notifications lie one after another.
    ensures notes_in_turn { NotesInTurn }
    // Later transactions begin no earlier.
    ensures place_grows { PlaceGrows }
    // A transaction with a queued notification takes some cells.
    ensures place_rises { PlaceRises }
    // The queue has at most two pages for each notification.
    ensures place_bound { PlaceBound }
    // An aborted transaction ends where a page begins.
    ensures aborted_ends { AbortedEnds }
    // A longer journal changes no place of its prefix.
    ensures places_agree { PlacesAgree }
    // A longer journal changes no cell of its prefix.
    ensures images_agree { ImagesAgree }
    // The cells between two places are those of the transaction that begins at the first.
    ensures cells_of_each { CellsOfEach }
    // No two transactions share a cell.
    ensures cells_apart { CellsApart }
{}

/// The pieces of a journal: its entries and fillers, between its cells and what is due from it.
pub fn pieces()
    // Pieces lie one after another.
    ensures pieces_in_turn { PiecesInTurn }
    // The cells of a journal are its pieces, laid one after another.
    ensures image_is_laid { ImageIsLaid }
    // The arithmetic of places counts the cells of transactions.
    ensures transactions_are_packed { TransactionsArePacked }
    // The pieces of two lists of transactions are those of the one and then those of the other.
    ensures pieces_split { PiecesSplit }
    // The cells from the place of a transaction on are those of the rest of the journal.
    ensures image_drops { ImageDrops }
    // From the place of a transaction on lie the pieces of those up to another, with their numbers, and then those of the rest.
    ensures journal_is_cut { JournalIsCut }
    // What the pieces give to a reader is what the transactions give, where the fates are told.
    ensures pieces_give_due { PiecesGiveDue }
    // What the pieces of a part of the journal give to a reader is what is due from that part.
    ensures pieces_give_all_due { PiecesGiveAllDue }
    // Finished transactions have queued all of their notifications, where they committed.
    ensures finished_queue_all { FinishedQueueAll }
    // A journal tells the fates of its own transactions.
    ensures journal_tells_fates { JournalTellsFates }
    // The pieces have the numbers of the transactions.
    ensures pieces_are_numbered { PiecesAreNumbered }
    // A later piece's number is no smaller.
    ensures numbers_rise { NumbersRise }
    // The pieces of written transactions are read back from their bytes.
    ensures pieces_are_readable { PiecesAreReadable }
    // The place after a piece is told by how many bytes it has.
    ensures piece_advances { PieceAdvances }
    // A piece that is read back has as many bytes as it states.
    ensures piece_has_bytes { PieceHasBytes }
    // Bytes that begin with a piece begin with no other one.
    ensures piece_reads_back { PieceReadsBack }
    // The first two cells of a piece hold its length and its database.
    ensures first_cells { FirstCells }
    // The next one holds its transaction's number.
    ensures third_cell { ThirdCell }
    // The numbers in the cells of bytes give the bytes back.
    ensures numbers_give_bytes { NumbersGiveBytes }
    // A cell of bytes holds the number that its four bytes spell.
    ensures cells_hold_numbers { CellsHoldNumbers }
{}

/// A transaction that has drawn a number and isn't finished: what is known of it, and its cells at the end of the queue.
pub fn drafts()
    // A finished transaction whose session and database are in range is written.
    ensures finished_are_written { FinishedAreWritten }
    // One transaction more adds the cells of its queued notifications, and where it is aborted a filler up to the next page.
    ensures one_more_image { OneMoreImage }
    // Where a page begins, the cells are the same whether the transaction goes on or is aborted.
    ensures draft_at_page_start { DraftAtPageStart }
    // A finished transaction is a draft with its end.
    ensures finished_are_drafts { FinishedAreDrafts }
    // A draft that has queued as many notifications as its end says is finished.
    ensures drafts_finish { DraftsFinish }
    // A draft whose notifications can be sent, and whose session and database are in range, is written.
    ensures drafts_are_written { DraftsAreWritten }
{}

/// A journal that goes on.
pub fn longer_journals()
    // A longer journal changes no place, no cell, no transaction and nothing of what is due before its new part.
    ensures longer_agrees { LongerAgrees }
    // The numbers of a session are those that it had, and then those of the new part.
    ensures xids_go_on { XidsGoOn }
{}

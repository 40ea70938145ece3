ghost use Rattle.pgn_layout.specs.Laws.{RunsAreCells, BatchesStay, FillersTakeRests, OneBatch, PlacingBegins, PlacingStands, PlacingGoesOn, PlacingEnds, PlacedIsDraft, PlacedIsCutShort, BatchesArePut, NoneIsSet, SetIsRead, OthersStay, SetFits, CodesTell, StatusHasBits};

/// A planned batch.
#[tactic(auto, using(crate::proofs::OneBatchLaws::batch_laws))]
pub fn batches()
    // Notifications whose entries run on a page are these entries, one after another, and then the rest of the page.
    ensures runs { RunsAreCells }
    // A batch is written on one page, and leaves a notification only where the next page begins.
    ensures stays { BatchesStay }
    // Its filler stands behind its entries, and takes the rest of the page.
    ensures fillers { FillersTakeRests }
    // No other one is planned for the same notifications from the same place.
    ensures one { OneBatch }
{}

/// A writer that goes from batch to batch.
#[tactic(auto, using(crate::proofs::PlacingLaws::placing_laws))]
pub fn placing()
    // It begins with nothing placed.
    ensures begins { PlacingBegins }
    // It stands at the end of its cells, where an entry may begin.
    ensures stands { PlacingStands }
    // A batch that is planned for the notifications that are left takes it further.
    ensures goes_on { PlacingGoesOn }
    // Once all are placed, their cells lie behind those that were there.
    ensures ends { PlacingEnds }
    // What is placed behind the cells of a journal is the image of that journal with a draft.
    ensures is_draft { PlacedIsDraft }
    // Where it stops at the beginning of a page, the transaction is cut short there.
    ensures is_cut_short { PlacedIsCutShort }
    // Batch after batch is notification after notification: the same cells, the same end and the same fillers.
    ensures are_put { BatchesArePut }
{}

/// The statuses in a word.
#[tactic(auto, using(crate::proofs::StatusLaws::status_laws))]
pub fn statuses()
    // In an empty word each transaction is in progress.
    ensures none_is_set { NoneIsSet }
    // A status that is set by an or is read back.
    ensures set_is_read { SetIsRead }
    // The statuses of the other transactions of the word stay.
    ensures others_stay { OthersStay }
    // The word stays one of 64 bits.
    ensures set_fits { SetFits }
    // A fate is told by its code.
    ensures codes_tell { CodesTell }
    // A status by its two bits.
    ensures has_bits { StatusHasBits }
{}

ghost use Rattle.pgn_laws.specs.Words.{WalksReadTheJournal, WalksReadTheFinished, WalksEndInTime, PagesAreSpared, NoWakeIsLost, FlagsAreFinished, ToldIsFinished, SignalledIsHeard};

/// What follows from the rule.
pub fn rule()
    // A cell that a walk loads is that of the journal, whatever was stored since the head was loaded.
    ensures walks { WalksReadTheJournal }
    // Up to where its way ends it is that of the finished journal, and the number that stands there is no less than where it goes.
    ensures finished { WalksReadTheFinished }
    ensures ends { WalksEndInTime }
    // A page is used again only once each position, and each tail that a joiner has loaded, is on a later one.
    ensures pages { PagesAreSpared }
    // Who is not woken and owes no read need not read.
    ensures wakes { NoWakeIsLost }
    // What a flag shows and what a pass was told is finished.
    ensures flags { FlagsAreFinished }
    ensures told { ToldIsFinished }
    // All wakes are set of what a pass knows to be signalled.
    ensures signalled { SignalledIsHeard }
{}

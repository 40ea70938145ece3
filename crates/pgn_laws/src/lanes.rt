ghost use Rattle.pgn_laws.specs.Lanes.{LeastIsLeast, OnlyEmptyHasNone, OneAnswerEach, EachByItself};

/// What the least of a list is, by its words.
pub fn least_laws()
    ensures least { LeastIsLeast }
    ensures none { OnlyEmptyHasNone }
{}

/// Whether a listener is woken depends on itself alone.
pub fn behind_laws()
    ensures length { OneAnswerEach }
    ensures each { EachByItself }
{}

ghost use Rattle.pgn_drill.specs.Laws.{DrillReads};

/// The text of a drill reads as a scenario, whatever the seed: no line has a fault, and each flag that is awaited is signalled.
pub fn text()
    ensures { DrillReads }
{}

ghost use Rattle.pgn_lines.specs.Shown.{ShownOnce};

/// What a line shows is told by the line.
pub fn lines()
    // A line shows one thing at most.
    ensures once { ShownOnce }
{}

ghost use Rattle.pgn_threads.specs.Laws.{RunsAreLegal};

/// The sessions that are over, and their passes that were gathered, are a legal run.
pub fn runs_are_legal()
    ensures { RunsAreLegal }
{}

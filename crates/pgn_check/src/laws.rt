ghost use Rattle.pgn_check.specs.Laws.{LegalIsReadable, LegalIsUnblamed};

/// What is seen of a legal run of a sound scenario, whose text has at most 67,108,864 bytes, is readable.
pub fn legal_is_readable()
    ensures { LegalIsReadable }
{}

/// Of the text of a legal run, which has at most 67,108,864 bytes, no line is to blame.
pub fn legal_is_unblamed()
    ensures { LegalIsUnblamed }
{}

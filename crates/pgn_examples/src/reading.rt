ghost use Rattle.std.specs.Prelude.{◌≡◌, [], ◌∷◌, ◌++◌};
ghost use Rattle.pgn_model.specs.Text.{text};
ghost use Rattle.pgn_reading.specs.Completed.{seen};
ghost use Rattle.pgn_reading.specs.WalkLaws.{completed_trace};
ghost use Rattle.pgn_model.specs.Walk.{default_settings};
ghost use Rattle.pgn_reading.specs.Form.{BreaksForm};
ghost use Rattle.pgn_reading.specs.Blame.{IsLegalText, IsLeastBlamed};
ghost use Rattle.pgn_examples.specs.Reading.{self, self_notify, sent, run, run_seen, run_unread, run_text, changed_text, unread_text, one_line_text, zero_text, unended_text, codes_x, codes_y, notifies, receives, ItsCommitIsRefused, ItsReadIsLeftOut, ItsReadIsMissing, MayBegin};

/// What is seen of a run's trace, and the run given back.
pub fn given_back()
    ensures seen { seen run.items ≡ run_seen.items }
    ensures completed { completed_trace self run_seen ≡ run }
    ensures shown { text self_notify (sent codes_x) (run_seen ∷ []) ≡ run_text }
{}

/// Outputs of which something was changed: a commit that the journal does not bear out, and a read that was left out.
pub fn changed()
    ensures payload_shown { text self_notify (sent codes_y) (run_seen ∷ []) ≡ changed_text }
    ensures payload_refused { ItsCommitIsRefused }
    ensures unread_shown { text self_notify (sent codes_x) (run_unread ∷ []) ≡ unread_text }
    ensures unread { ItsReadIsMissing }
{}

/// A read that was left out before a line, and one that was not.
pub fn left_out()
    ensures blamed { ItsReadIsLeftOut }
    ensures unread { MayBegin (notifies []) → ⊥ }
    ensures read { MayBegin (notifies [] ++ receives) }
{}

/// The output of the run is that of a legal run, and texts that are no outputs.
pub fn form()
    ensures legal { IsLegalText self_notify default_settings run_text }
    ensures one_line { IsLeastBlamed self_notify default_settings one_line_text 2 }
    ensures zero { BreaksForm self_notify zero_text 1 }
    ensures unended { BreaksForm self_notify unended_text 13 }
{}

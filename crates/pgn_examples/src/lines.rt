ghost use Rattle.std.specs.Prelude.{◌≡◌, ℕ, codes, None, Some};
ghost use Rattle.pgn_base.specs.declared.answers.Refusal.TheVariants as refusal;
ghost use Rattle.pgn_base.specs.declared.answers.Tag.TheVariants as tag;
ghost use Rattle.pgn_base.specs.declared.note.Note.{Note};
ghost use Rattle.pgn_examples.specs.Lines.{from_second, its, long_text};
ghost use Rattle.pgn_lines.specs.Shown.{IsHeld, Reads, Shows, Unshown, shown_text};
ghost use Rattle.pgn_lines.specs.declared.shown.Shown.TheVariants as show;

/// Lines, and what they show.
pub fn shown()
    ensures publish { Shows (codes "+publish 3") (show.Publish 3) }
    ensures aborted { Shows (codes "xid 4 session 2 abort 1 of 3") (show.Aborted 4 2 1 3) }
    ensures sent { shown_text (show.Sent its) ≡ codes "  \"c\", 'it''s'" }
    ensures received { shown_text (show.Received from_second) ≡ codes "  3 1002 \"c\", 'it''s'" }
    ensures measured { Shows (codes "+usage 5 floor 3 holder none") (show.Measured 5 3 None) }
    ensures pages { Shows (codes "  0/8") (show.Pages 0 8) }
    ensures rows { Shows (codes "SELECT 2") (show.Tagged (tag.Select 2)) }
    ensures end { Shows (codes "end mark 4") (show.End (Some 4)) }
{}

/// What no line shows, since no type holds it.
pub fn not_held()
    // The first transaction is numbered 3.
    ensures xid { IsHeld (show.Publish 2) → ⊥ }
    // There are at most 256 sessions.
    ensures session { IsHeld (show.Committed 3 257 0) → ⊥ }
    // The number of each entry, and the next, are held by 32 bits.
    ensures entries { IsHeld (show.Journal 4294967293) → ⊥ }
    // A channel has at most 63 bytes.
    ensures channel { IsHeld (show.Channel long_text) → ⊥ }
    // A savepoint has a name.
    ensures savepoint { IsHeld (show.Refuse (refusal.NoSavepoint (codes ""))) → ⊥ }
{}

/// Lines that show nothing, or another thing than they seem to.
pub fn not_shown()
    // A number has no leading zero.
    ensures zero { Reads (codes "+publish 03") None }
    // Nothing follows it.
    ensures blank { Reads (codes "+publish 3 ") None }
    // A quote in a payload is written twice.
    ensures quote { (note : Note) → Unshown (codes "  \"c\", 'it's'") (show.Sent note) }
    // A committed transaction's line is that of no aborted one.
    ensures fate { (xid session queued notes : ℕ) → Unshown (codes "xid 3 session 1 commit 1") (show.Aborted xid session queued notes) }
{}

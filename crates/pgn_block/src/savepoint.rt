ghost use Rattle.std.specs.Prelude.{◌≡◌, ◌<◌, ℕ, false, true, length, slice_index_or, All, IfNone, IfSome};
ghost use Rattle.pgn_block.specs.Kept.{is_named};
ghost use Rattle.pgn_block.specs.declared.savepoint.Savepoint.{Savepoint};

use pgn_base::Name;

/// A savepoint that stands: its name, and how many notifications and actions there were when it was made. They are counted as
/// they are kept, repeats once.
#[derive(Drop)]
pub struct Savepoint {
    pub name: Name,
    pub notes: usize,
    pub actions: usize,
}

// Where the newest savepoint of this name stands.
pub(crate) fn newest(savepoints: &[Savepoint], name: &Name) -> Option<usize>
    ensures none { IfNone result
        (All (λ savepoint. is_named name.now savepoint ≡ false) savepoints.now) }
    ensures within { IfSome result (λ at. at < length savepoints.now) }
    ensures named { IfSome result (λ at. (other : Savepoint)
        → is_named name.now (slice_index_or savepoints.now at other) ≡ true) }
    ensures newest { IfSome result (λ at. (k : ℕ) (other : Savepoint)
        → at < k → k < length savepoints.now
        → is_named name.now (slice_index_or savepoints.now k other) ≡ false) }
{
    savepoints
        .iter()
        .rposition(|savepoint| *name == savepoint.name)
}

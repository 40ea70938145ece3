ghost use Rattle.std.specs.Prelude.{◌≡◌, ℕ, ◌+◌, ◌*◌, ◌%◌, ◌<◌, ◌≤◌, ◌↔◌, All, length};
ghost use Rattle.std.specs.Simd.Lanes.{mask_l};
ghost use Rattle.pgn_lanes.specs.Behind.{page_of, pages_behind, is_woken, plain_behind, Marks};

use std::simd::prelude::*;

// How many listeners are looked at together.
const LANES: usize = 8;

// How many listeners a word of the mask has a bit for.
const WORD_BITS: usize = 64;

// How many cells a page has.
const PAGE_CELLS: u64 = 2048;

// A listener of another database is woken where it is as many pages behind.
const PAGES_BEHIND: u64 = 4;

// The first cell at which a listener of another database is not woken.
fn far_below(head: u64) -> u64
    ensures { (position : ℕ)
        → (position < result) ↔ (page_of position + pages_behind ≤ page_of head) }
{
    (head / PAGE_CELLS).saturating_sub(PAGES_BEHIND - 1) * PAGE_CELLS
}

// Whether one listener is woken.
fn needs_wake(position: u64, own: u32, head: u64, db: u32) -> bool
    ensures { result ≡ is_woken head db position own }
{
    if own == db {
        position != head
    } else {
        position / PAGE_CELLS + PAGES_BEHIND <= head / PAGE_CELLS
    }
}

// A bit for each listener of the lanes. No position is past the head, so one that is not the head is below it.
fn lane_marks(pos: u64x8, owns: u32x8, head: u64, db: u32) -> u64
    requires { All (λ position. position ≤ head) pos }
    ensures { result ≡ mask_l (plain_behind head db pos owns) }
{
    let of_db = owns.cast::<u64>().simd_eq(u64x8::splat(u64::from(db)));
    let below = of_db.select(u64x8::splat(head), u64x8::splat(far_below(head)));
    pos.simd_lt(below).to_bitmask()
}

// A bit for each of at most 64 listeners, of which there is a multiple of the lanes.
fn whole_marks(pos: &[u64], dbs: &[u32], head: u64, db: u32) -> u64
    requires same_length { length pos.now ≡ length dbs.now }
    requires not_past { All (λ position. position ≤ head) pos.now }
    requires short { length pos.now ≤ WORD_BITS }
    requires whole { length pos.now % LANES ≡ 0 }
    ensures { result ≡ mask_l (plain_behind head db pos.now dbs.now) }
{
    let mut marks = 0;
    for block in 0..pos.len() / LANES {
        let at = block * LANES;
        let lanes = lane_marks(
            u64x8::from_slice(&pos[at..]),
            u32x8::from_slice(&dbs[at..]),
            head,
            db,
        );
        marks |= lanes << at;
    }
    marks
}

// A bit for each of at most 64 listeners.
fn word_marks(pos: &[u64], dbs: &[u32], head: u64, db: u32) -> u64
    requires same_length { length pos.now ≡ length dbs.now }
    requires not_past { All (λ position. position ≤ head) pos.now }
    requires short { length pos.now ≤ WORD_BITS }
    ensures { result ≡ mask_l (plain_behind head db pos.now dbs.now) }
{
    let whole = pos.len() / LANES * LANES;
    let mut marks = whole_marks(&pos[..whole], &dbs[..whole], head, db);
    for at in whole..pos.len() {
        marks |= u64::from(needs_wake(pos[at], dbs[at], head, db)) << at;
    }
    marks
}

/// Sets bit i of the mask exactly where a writer of database `db`, after moving the head to `head`, wakes listener i: one of that
/// database where its position is not the head, and any other where the head's page is at least four pages beyond its own.
///
/// Positions are cell numbers, 2,048 to a page, and none may be past the head. `dbs` has the database of each listener. The mask has
/// a bit for each, 64 to a word from the lowest on, and is zero.
pub fn behind(pos: &[u64], dbs: &[u32], head: u64, db: u32, mask: &mut [u64])
    requires same_length { length pos.now ≡ length dbs.now }
    requires not_past { All (λ position. position ≤ head) pos.now }
    requires room { length pos.now ≤ 64 * length mask.old }
    requires clear { All (λ word. word ≡ 0) mask.old }
    ensures { Marks mask.new (plain_behind head db pos.now dbs.now) }
{
    for word in 0..pos.len().div_ceil(WORD_BITS) {
        let from = word * WORD_BITS;
        let to = pos.len().min(from + WORD_BITS);
        mask[word] = word_marks(&pos[from..to], &dbs[from..to], head, db);
    }
}

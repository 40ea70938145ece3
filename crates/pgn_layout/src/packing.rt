ghost use Rattle.std.specs.Prelude.{◌≡◌, ◌≢◌, ◌⊎◌, ◌+◌, ◌%◌, ◌^◌, ◌<◌, ◌≤◌, [], length};
ghost use Rattle.pgn_journal.specs.Bytes.{alignment, least_bytes, IsEntryLength};
ghost use Rattle.pgn_journal.specs.Packing.{next_page, bytes_left, cells_in, bytes_in, fits, after_bytes, HasRoom};
ghost use Rattle.pgn_layout.specs.Batches.{IsPlanned};

use crate::pos::PAGE_CELLS;
use crate::{Batch, Pos};
use pgn_base::{CELL_BYTES, Format, Note};
use pgn_entry::entry_len;

// The shortest entry has this many bytes.
fn least_len(format: Format) -> u32
    ensures { result ≡ least_bytes format }
{
    match format {
        Format::One => 20,
        Format::Two => 32,
    }
}

// Where the page after that of a place begins.
fn end_of_page(pos: Pos) -> Pos
    requires { next_page pos < 2 ^ 64 }
    ensures { result ≡ next_page pos }
{
    Pos::new((pos.page() + 1) * PAGE_CELLS)
}

// The bytes from a place to the end of its page.
fn left_on_page(pos: Pos) -> u32
    requires { next_page pos < 2 ^ 64 }
    ensures { result ≡ bytes_left pos }
{
    (end_of_page(pos).get() - pos.get()) as u32 * CELL_BYTES as u32
}

/// The place after an entry or a filler of so many bytes. Where the rest of the page is shorter than the shortest entry, it is
/// skipped.
#[tactic(auto, unfolding(pgn_journal::specs::Packing::after_bytes, pgn_journal::specs::Packing::after_rest))]
pub fn advance(format: Format, pos: Pos, len: u32) -> Pos
    requires low { pos < 2 ^ 32 }
    requires least { least_bytes format ≤ len }
    ensures value { result ≡ after_bytes format pos len }
    ensures further { pos < result }

    // Where it ends at a multiple of the alignment, an entry may begin there.
    ensures room { bytes_in (pos + cells_in len) % alignment format ≡ 0 → HasRoom format result }
{
    let end = Pos::new(pos.get() + u64::from(len) / CELL_BYTES as u64);
    if left_on_page(end) < least_len(format) {
        end_of_page(end)
    } else {
        end
    }
}

/// The next batch of these notifications, from a place on.
pub fn plan_batch(format: Format, pos: Pos, notes: &[Note]) -> Batch
    requires low { pos < 2 ^ 32 }
    requires room { HasRoom format pos }
    ensures planned { IsPlanned format pos notes.now result }
    ensures within { result.fits ≤ length notes.now }
    ensures filler { 0 < result.filler → IsEntryLength format result.filler }

    // It stays on its page, and an entry may begin where it ends.
    ensures page { result.next ≤ next_page pos }
    ensures room { HasRoom format result.next }

    // Where a notification is left, it writes something.
    ensures further { notes.now ≢ [] → pos < result.next }
    ensures writes { notes.now ≢ [] → (0 < result.fits) ⊎ (0 < result.filler) }
    ensures nothing { notes.now ≡ [] → result ≡ record { fits = 0; filler = 0; next = pos } }
{
    let page_end = end_of_page(pos);
    let mut next = pos;
    for (fits, note) in notes.iter().enumerate() {
        let len = entry_len(format, note);
        let left = left_on_page(next);
        if len > left {
            return Batch {
                fits,
                filler: left,
                next: page_end,
            };
        }
        next = advance(format, next, len);
        if next == page_end {
            return Batch {
                fits: fits + 1,
                filler: 0,
                next,
            };
        }
    }
    Batch {
        fits: notes.len(),
        filler: 0,
        next,
    }
}

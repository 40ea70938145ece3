ghost use Rattle.std.specs.Prelude.{◌≡◌, ◌+◌, ◌*◌, ◌^◌, ◌<◌, ◌≤◌, length};
ghost use Rattle.pgn_journal.specs.Bytes.{aligned, entry_length, header_bytes, least_bytes};
ghost use Rattle.pgn_journal.specs.Packing.{after, after_bytes, ended, fits, is_page_start, next_page, page_of, put, put_all};
ghost use Rattle.pgn_ledger.specs.Places.{most_cells};

use pgn_base::{CELL_BYTES, Format, Note, PAGE_BYTES};
use pgn_journal::{Fate, Tx};

/// The cells of a page.
const PAGE_CELLS: u64 = PAGE_BYTES as u64 / CELL_BYTES as u64;

/// The page of a place.
pub fn page_of(at: u64) -> u64
    ensures { result ≡ page_of at }
{
    at / PAGE_CELLS
}

// Where the page after that of a place begins.
fn next_page(at: u64) -> u64
    requires { at < 2 ^ 63 }
    ensures value { result ≡ next_page at }
    ensures within { result ≤ at + 2048 }
    ensures further { at < result }
{
    (at / PAGE_CELLS + 1) * PAGE_CELLS
}

/// A page begins at the place.
pub fn is_page_start(at: u64) -> bool
    ensures { result ≡ is_page_start at }
{
    at / PAGE_CELLS * PAGE_CELLS == at
}

/// An entry of this many bytes fits on the page of a place, from the place on.
pub fn fits(at: u64, bytes: u64) -> bool
    requires { at < 2 ^ 63 }
    ensures { result ≡ fits at bytes }
{
    bytes <= (next_page(at) - at) * CELL_BYTES as u64
}

// The length of an entry of so many bytes, rounded up.
fn aligned(format: Format, bytes: u64) -> u64
    requires { bytes ≤ 8192 }
    ensures value { result ≡ aligned format bytes }
    ensures within { result ≤ 8200 }
{
    match format {
        Format::One => (bytes + 3) / 4 * 4,
        Format::Two => (bytes + 7) / 8 * 8,
    }
}

// The bytes of an entry's head.
fn header_bytes(format: Format) -> u64
    ensures value { result ≡ header_bytes format }
    ensures within { result ≤ 24 }
{
    match format {
        Format::One => 16,
        Format::Two => 24,
    }
}

/// The length in bytes of the entry of a notification.
#[tactic(auto, unfolding(pgn_journal::specs::Bytes::entry_length))]
pub fn entry_length(format: Format, note: &Note) -> u64
    ensures value { result ≡ entry_length format note.now }
    ensures within { result ≤ 8200 }
{
    let channel = note.channel.as_bytes().len() as u64;
    let payload = note.payload.as_bytes().len() as u64;
    aligned(format, header_bytes(format) + (channel + 1) + (payload + 1))
}

// The bytes of the shortest entry.
fn least_bytes(format: Format) -> u64
    ensures { result ≡ least_bytes format }
{
    match format {
        Format::One => 20,
        Format::Two => 32,
    }
}

// The place after so many bytes, and after the page rest that follows.
#[tactic(auto, unfolding(pgn_journal::specs::Packing::after_bytes, pgn_journal::specs::Packing::after_rest))]
fn after_bytes(format: Format, at: u64, bytes: u64) -> u64
    requires low { at < 2 ^ 62 }
    requires few { bytes ≤ 8200 }
    ensures value { result ≡ after_bytes format at bytes }
    ensures within { result ≤ at + 4098 }
{
    let end = at + bytes / CELL_BYTES as u64;
    if fits(end, least_bytes(format)) {
        end
    } else {
        next_page(end)
    }
}

// The place after a notification.
#[tactic(auto, unfolding(pgn_journal::specs::Packing::put, pgn_journal::specs::Packing::put_bytes))]
fn put(format: Format, at: u64, note: &Note) -> u64
    requires { at < 2 ^ 61 }
    ensures value { result ≡ put format at note.now }
    ensures within { result ≤ at + most_cells }
{
    let bytes = entry_length(format, note);
    if fits(at, bytes) {
        after_bytes(format, at, bytes)
    } else {
        after_bytes(format, next_page(at), bytes)
    }
}

/// The place after notifications, one after another.
pub fn put_all(format: Format, at: u64, notes: &[Note]) -> u64
    requires { at + most_cells * length notes.now < 2 ^ 60 }
    ensures value { result ≡ put_all format at notes.now }
    ensures within { result ≤ at + most_cells * length notes.now }
{
    let mut end = at;
    for note in notes {
        end = put(format, end, note);
    }
    end
}

// The place where a transaction ends whose notifications end at a place: where it was aborted and no page begins there, the next page.
#[tactic(auto, unfolding(pgn_journal::specs::Packing::ended))]
fn ended(fate: Fate, at: u64) -> u64
    requires { at < 2 ^ 63 }
    ensures { result ≡ ended fate at }
{
    match fate {
        Fate::Committed => at,
        Fate::Aborted => {
            if is_page_start(at) {
                return at;
            }
            next_page(at)
        }
    }
}

/// The place after a transaction that begins at a place.
#[tactic(auto, unfolding(pgn_journal::specs::Packing::after))]
pub fn after(format: Format, at: u64, tx: &Tx) -> u64
    requires low { at + most_cells * length tx.now.notes < 2 ^ 60 }
    requires queued { tx.now.queued ≤ length tx.now.notes }
    ensures { result ≡ after format at tx.now }
{
    let queued = &tx.notes.as_slice()[..tx.queued as usize];
    ended(tx.fate, put_all(format, at, queued))
}

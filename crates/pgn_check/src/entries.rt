ghost use Rattle.std.specs.Prelude.{◌≡◌, ◌+◌, ◌^◌, ◌<◌, [], ◌∷◌, ◌++◌, cond, not, IfOk, OnOk};
ghost use Rattle.std.specs.List.{list_any};
ghost use Rattle.pgn_answers.specs.Savepoints.{same_note};
ghost use Rattle.pgn_model.specs.Legal.{names_section};
ghost use Rattle.pgn_check.specs.Entries.{first_bad_from, is_good, is_queued, lines_in, repeats_after};

use indexmap::IndexSet;
use pgn_base::{Copied, Note, Seed, SessionNo};
use pgn_journal::{Fate, Tx};
use pgn_language::Section;
use std::alloc::{AllocError, Global};

/// The number of the first line of the first transaction that is not finished or no section's, where the first transaction's first
/// line is the second of the text. Hashes are made with this seed.
pub fn first_bad(
    alloc: Global,
    seed: Seed,
    sections: &[Section],
    journal: &[Tx],
) -> Result<Option<usize>, AllocError>
    requires { 2 + lines_in journal.now < 2 ^ 64 }
    ensures { IfOk result (λ found. found ≡ first_bad_from sections.now 2 journal.now) }
{
    let mut number: usize = 2;
    for tx in journal {
        if !is_good(alloc, seed, sections, tx)? {
            return Ok(Some(number));
        }
        number += 1 + tx.notes.as_slice().len();
    }
    Ok(None)
}

// A transaction has notifications, all different, as many were queued as its end asks for, and some section has its session's number.
fn is_good(alloc: Global, seed: Seed, sections: &[Section], tx: &Tx) -> Result<bool, AllocError>
    ensures { IfOk result (λ good. good ≡ is_good sections.now tx.now) }
{
    if tx.notes.as_slice().is_empty() {
        return Ok(false);
    }
    if !is_queued(tx) {
        return Ok(false);
    }
    if !names(sections, tx.session) {
        return Ok(false);
    }
    are_different(alloc, seed, tx.notes.as_slice())
}

// All notifications were queued where the transaction committed, and fewer where it was aborted.
fn is_queued(tx: &Tx) -> bool
    ensures { result ≡ is_queued tx.now }
{
    let count = tx.notes.as_slice().len();
    match tx.fate {
        Fate::Committed => tx.queued as usize == count,
        Fate::Aborted => (tx.queued as usize) < count,
    }
}

// Some section has this number.
fn names(sections: &[Section], session: SessionNo) -> bool
    ensures { result ≡ names_section sections.now session }
{
    for section in sections {
        if section.no == session {
            return true;
        }
    }
    false
}

// No notification stands twice.
#[tactic(auto, using(crate::proofs::NoteLaws::short_has_none))]
fn are_different(alloc: Global, seed: Seed, notes: &[Note]) -> Result<bool, AllocError>
    ensures { IfOk result (λ different. different ≡ not (repeats_after [] notes.now)) }
{
    if notes.len() < 2 {
        return Ok(true);
    }
    let mut seen = IndexSet::with_hasher(alloc, seed);
    let different = put_all(alloc, &mut seen, notes);
    drop(seen);
    different
}

// Puts notifications into a set, up to the first that is not new.
fn put_all(
    alloc: Global,
    seen: &mut IndexSet<Note, Seed>,
    notes: &[Note],
) -> Result<bool, AllocError>
    ensures { IfOk result (λ different. different ≡ not (repeats_after seen.old.keys notes.now)) }
{
    for note in notes {
        if !put(seen, note.copy(alloc)?)? {
            return Ok(false);
        }
    }
    Ok(true)
}

// Puts a notification into a set, and tells whether it is new.
fn put(seen: &mut IndexSet<Note, Seed>, note: Note) -> Result<bool, AllocError>
    ensures added { IfOk result (λ new. new ≡ not (list_any (same_note note) seen.old.keys)) }
    ensures keys { OnOk result (seen.new.keys ≡ cond (list_any (same_note note) seen.old.keys) seen.old.keys (seen.old.keys ++ note ∷ [])) }
{
    let new = seen.insert(note)?;
    Ok(new)
}

/// How many lines transactions have.
pub fn lines_in(journal: &[Tx]) -> usize
    requires { lines_in journal.now < 2 ^ 63 }
    ensures { result ≡ lines_in journal.now }
{
    let mut lines = 0;
    for tx in journal {
        lines += 1 + tx.notes.as_slice().len();
    }
    lines
}

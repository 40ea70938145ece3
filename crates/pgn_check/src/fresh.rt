ghost use Rattle.std.specs.Prelude.{◌≡◌, ◌↔◌, ℕ, true, false, List, Some, drop};
ghost use Rattle.std.specs.List.{list_any};
ghost use Rattle.pgn_journal.specs.declared.tx.Tx.{Tx};
ghost use Rattle.pgn_journal.specs.Journal.{entries_between};
ghost use Rattle.pgn_journal.specs.Due.{is_due_to};
ghost use Rattle.pgn_language.specs.declared.scenario.Section.{Section};
ghost use Rattle.pgn_model.specs.Trace.{IsFreshAt, IsReadUp, IsUpToDate, next_reads_first, reads_first};
ghost use Rattle.pgn_walk.specs.Basis.{journal_of, terms_of};
ghost use Rattle.pgn_check.specs.Fresh.{Asks, HasReadFirst};

use pgn_base::Command;
use pgn_language::{Act, Section};
use pgn_model::Item;
use pgn_walk::{Basis, Standing, begins_line};

/// No read was left out before an item.
pub fn is_fresh_at(at: &Standing, basis: &Basis, item: &Item) -> bool
    ensures { Asks (terms_of basis.now).section (journal_of basis.now) at.now result
        (λ s. IsFreshAt (terms_of basis.now) (journal_of basis.now) s item.now) }
{
    if !begins_line(item) {
        return true;
    }
    if !at.is_idle() {
        return true;
    }
    if !is_up_to_date(at, basis) {
        return false;
    }
    has_read_first(at, basis.section)
}

// Before a line that listens or opens a block a listener has read up to what it was told of.
fn has_read_first(at: &Standing, section: &Section) -> bool
    ensures { (journal : List Tx) → Asks section.now journal at.now result HasReadFirst }
{
    if !is_first_read_next(at, section) {
        return true;
    }
    is_read_up(at)
}

// The next line is such a one.
fn is_first_read_next(at: &Standing, section: &Section) -> bool
    ensures { result ≡ next_reads_first (drop at.now.next section.now.lines) }
{
    match section.lines.as_slice().get(at.next) {
        Some(line) => is_read_before(&line.act),
        None => false,
    }
}

// The line listens or opens a block.
fn is_read_before(act: &Act) -> bool
    ensures { result ≡ reads_first act.now }
{
    match act {
        Act::Run(Command::Listen(_) | Command::Begin | Command::Start) => true,
        _ => false,
    }
}

// A listener has read up to what it was told of.
fn is_read_up(at: &Standing) -> bool
    ensures { (result ≡ true) ↔ IsReadUp at.now.mark at.now.told }
{
    match &at.mark {
        None => true,
        Some(mark) => at.told.get() <= mark.get(),
    }
}

/// A listener need not read up to what it was told of.
#[tactic(auto, using(crate::proofs::FreshLaws::up_none))]
pub fn is_up_to_date(at: &Standing, basis: &Basis) -> bool
    ensures { Asks (terms_of basis.now).section (journal_of basis.now) at.now result
        (λ s. IsUpToDate (terms_of basis.now) (journal_of basis.now) s) }
{
    let Some(mark) = at.mark else {
        return true;
    };
    if !basis.ledger.is_close(&mark, at.told.get()) {
        return false;
    }
    finds_nothing(at)
}

// From the mark on nothing is due.
fn finds_nothing(at: &Standing) -> bool
    ensures { (section : Section) (journal : List Tx) (mark : ℕ) → at.now.mark ≡ Some mark
        → Asks section journal at.now result
        (λ s. list_any (is_due_to section.db s.set) (entries_between journal mark s.told) ≡ false) }
{
    at.watch.finds_nothing(at.told.get())
}

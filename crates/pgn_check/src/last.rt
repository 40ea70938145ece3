ghost use Rattle.std.specs.Prelude.{◌≡◌, ◌↔◌, ◌≤◌, ◌||◌, true, List, length, IfSome};
ghost use Rattle.pgn_journal.specs.Journal.{next_xid};
ghost use Rattle.pgn_journal.specs.declared.tx.Tx.{Tx};
ghost use Rattle.pgn_model.specs.Trace.{IsEnd};
ghost use Rattle.pgn_walk.specs.Basis.{journal_of, terms_of};
ghost use Rattle.pgn_check.specs.Fresh.{Asks};
ghost use Rattle.pgn_check.specs.Walked.{AsksLast, IsMissingNone};

use crate::fresh::is_up_to_date;
use pgn_base::Xid;
use pgn_language::Section;
use pgn_ledger::are_all;
use pgn_walk::{Basis, Standing};

// The end of a trace.

/// No read was left out, where no block is open or no script line is left.
#[tactic(auto, using(crate::proofs::LastLaws::last_off, crate::proofs::LastLaws::last_by))]
pub fn is_fresh_last(at: &Standing, basis: &Basis) -> bool
    ensures { AsksLast (terms_of basis.now) (journal_of basis.now) at.now result }
{
    if !is_either(at.is_idle(), is_over(at, basis.section)) {
        return true;
    }
    is_up_to_date(at, basis)
}

/// Nothing is missing, where so many transactions were shown.
#[tactic(auto, using(crate::proofs::LastLaws::whole_by))]
pub fn is_whole(at: &Standing, basis: &Basis, own: usize, last: &Option<Xid>) -> bool
    ensures { Asks basis.now.section.now (journal_of basis.now) at.now result
        (IsMissingNone basis.now own last.now) }
{
    are_all(
        has_ended(at, basis.section, last),
        basis.ledger.count_of(basis.section.no) <= own,
        has_read_all(basis, last),
    )
}

// The script is done, its last line has its whole answer, and this is the mark.
#[tactic(auto, using(crate::proofs::LastLaws::ended_by))]
fn has_ended(at: &Standing, section: &Section, last: &Option<Xid>) -> bool
    ensures { (journal : List Tx) → Asks section.now journal at.now result (λ s. IsEnd s last.now) }
{
    are_all(at.has_answered(), is_over(at, section), has_mark(at, last))
}

// No script line is left.
fn is_over(at: &Standing, section: &Section) -> bool
    ensures { (result ≡ true) ↔ (length section.now.lines ≤ at.now.next) }
{
    at.next >= section.lines.as_slice().len()
}

// This is the mark.
fn has_mark(at: &Standing, last: &Option<Xid>) -> bool
    ensures { (result ≡ true) ↔ (at.now.mark ≡ last.now) }
{
    at.mark == *last
}

// One of two.
fn is_either(a: bool, b: bool) -> bool
    ensures { result ≡ (a || b) }
{
    a || b
}

// A session that still listens has read the whole journal.
fn has_read_all(basis: &Basis, last: &Option<Xid>) -> bool
    ensures { (result ≡ true) ↔ IfSome last.now (λ mark. mark ≡ next_xid (journal_of basis.now)) }
{
    match last {
        None => true,
        Some(mark) => mark.get() == basis.ledger.next_xid(),
    }
}

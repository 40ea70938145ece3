ghost use Rattle.std.specs.Prelude.{◌≡◌, ◌↔◌, ◌+◌, ◌≤◌, true, List, [], ◌∷◌, ◌++◌, length, All, Contains};
ghost use Rattle.pgn_answers.specs.Refusals.{warning_lines};
ghost use Rattle.pgn_language.specs.declared.scenario.ScriptLine.{ScriptLine};
ghost use Rattle.pgn_language.specs.declared.scenario.Section.{Section};
ghost use Rattle.pgn_model.specs.declared.item.Item.{Item};
ghost use Rattle.pgn_model.specs.declared.trace.Trace.{Trace};
ghost use Rattle.pgn_model.specs.Walk.{State, holder_at};
ghost use Rattle.pgn_model.specs.Text.{item_lines};
ghost use Rattle.pgn_model.specs.Legal.{IsFullThere, IsShownWithin, finished_xids};
ghost use Rattle.pgn_reading.specs.Blame.{IsBorneOut, IsNextOwn};
ghost use Rattle.pgn_reading.specs.Shown.{ShowsMark, found_shown, named_shown, raised_in};
ghost use Rattle.pgn_walk.specs.Evidence.{IsEvidence, finished_count};
ghost use Rattle.pgn_walk.specs.Basis.{Tells, journal_of, settings_of};
ghost use Rattle.pgn_ledger.specs.ToShow.{owed_of};

use crate::basis::Basis;
use crate::evidence::Evidence;
use pgn_base::{SessionNo, Warning, Xid};
use pgn_ledger::{Ledger, ToShow, are_all};
use pgn_model::Item;

/// The journal and all traces bear an item out, where this is left to show.
#[tactic(auto, using(crate::proofs::BorneLaws::borne_is))]
pub fn is_borne_out(basis: &Basis, owed: &ToShow, item: &Item) -> bool
    ensures { (sections : List Section) (traces : List Trace) (s : State)
        → Tells basis.now sections traces → s.owed ≡ owed_of owed.now
        → (result ≡ true) ↔
        IsBorneOut (settings_of basis.now) sections (journal_of basis.now) traces s item.now }
{
    let full = is_full_there(basis, item);
    let found = was_raised(basis.evidence, owed, item);
    let holder = was_stood_at(basis.evidence, item);
    let within = is_within(basis.ledger.next_xid(), item);
    are_all(full, are_all(found, holder, within), true)
}

// A full queue was full.
fn is_full_there(basis: &Basis, item: &Item) -> bool
    ensures { (result ≡ true) ↔
        IsFullThere (settings_of basis.now) (journal_of basis.now) item.now }
{
    match item {
        Item::QueueFull { full, .. } => basis.ledger.was_full(basis.limit, full),
        _ => true,
    }
}

// A flag that is found was raised with the number.
fn was_raised(evidence: &Evidence, owed: &ToShow, item: &Item) -> bool
    ensures { (sections : List Section) (traces : List Trace)
        → IsEvidence sections traces evidence.now.raised evidence.now.stood
        → (result ≡ true) ↔
        All (Contains (raised_in sections traces)) (found_shown (owed_of owed.now) item.now) }
{
    match (owed, item) {
        (ToShow::Awaiting { flag }, Item::Found { value }) => evidence.was_raised(*flag, *value),
        _ => true,
    }
}

// A session that is named as a holder stood at the floor mark.
fn was_stood_at(evidence: &Evidence, item: &Item) -> bool
    ensures { (sections : List Section) (traces : List Trace)
        → IsEvidence sections traces evidence.now.raised evidence.now.stood
        → (result ≡ true) ↔ All (ShowsMark traces) (named_shown item.now) }
{
    match item {
        Item::QueueFull { full, .. } => held(evidence, &full.holder, full.floor_mark),
        Item::Used { usage } => held(evidence, &usage.holder, usage.floor_mark),
        _ => true,
    }
}

// The holder stood at the mark, if there is one.
fn held(evidence: &Evidence, holder: &Option<SessionNo>, mark: Xid) -> bool
    ensures { (sections : List Section) (traces : List Trace)
        → IsEvidence sections traces evidence.now.raised evidence.now.stood
        → (result ≡ true) ↔ All (ShowsMark traces) (holder_at holder.now mark) }
{
    match holder {
        None => true,
        Some(session) => evidence.stood_at(*session, mark),
    }
}

// No number is past a number.
fn is_within(most: u32, item: &Item) -> bool
    ensures { (result ≡ true) ↔ IsShownWithin most item.now }
{
    match item {
        Item::Enlist { base, point } => base.get() <= most && point.get() <= most,
        Item::Publish { xid, .. } => xid.get() <= most,
        Item::QueueFull { full, .. } => full.xid.get() <= most && full.floor_mark.get() <= most,
        Item::Used { usage } => usage.at.get() <= most && usage.floor_mark.get() <= most,
        Item::Raise { value } | Item::Found { value } => value.get() <= most,
        Item::Read { from, to, .. } => from.get() <= most && to.get() <= most,
        _ => true,
    }
}

/// A transaction that an item shows as finished is the session's next after so many.
pub fn is_next_own(ledger: &Ledger, session: SessionNo, own: usize, item: &Item) -> bool
    ensures { (section : Section) (before : List Item)
        → section.no ≡ session → own ≡ length (finished_xids before)
        → (result ≡ true) ↔ IsNextOwn section ledger.now.journal.now before item.now }
{
    match item {
        Item::Publish { xid, .. } => ledger.is_next_of(session, own, *xid),
        Item::QueueFull { full, .. } => ledger.is_next_of(session, own, full.xid),
        _ => true,
    }
}

/// How many transactions an item shows as finished.
pub fn finished_in(item: &Item) -> usize
    ensures value { (before : List Item)
        → length (finished_xids (before ++ item.now ∷ [])) ≡ length (finished_xids before) + result }
    ensures within { (lines : List ScriptLine) → result ≤ length (item_lines lines item.now) }
{
    count_finished(item)
}

// The same, in the words of what may be counted.
fn count_finished(item: &Item) -> usize
    ensures { result ≡ finished_count item.now }
{
    match item {
        Item::Publish { .. } | Item::QueueFull { .. } => 1,
        _ => 0,
    }
}

/// How many lines an item has.
pub fn lines_of(item: &Item) -> usize
    ensures { (lines : List ScriptLine) → length (item_lines lines item.now) ≡ result }
{
    match item {
        Item::Reply { warning, .. } => lines_of_warning(warning) + 1,
        Item::Channels { names } => names.as_slice().len(),
        Item::Used { .. } => 2,
        Item::Read { got, .. } => got.as_slice().len() + 1,
        _ => 1,
    }
}

// How many lines a warning has.
fn lines_of_warning(warning: &Option<Warning>) -> usize
    ensures value { result ≡ length (warning_lines warning.now) }
    ensures within { result ≤ 1 }
{
    match warning {
        None => 0,
        Some(_) => 1,
    }
}

ghost use Rattle.std.specs.Prelude.{IfOk};
ghost use Rattle.pgn_lines.specs.Shown.{Answers, Entries, Events, Reads, ReadsOf, Rows};

use crate::answers::{end, no_savepoint, refused, tagged, warning};
use crate::entries::{aborted, committed, journal};
use crate::events::{full_of, measured};
use crate::fields::{one_long, one_xid, two_xids};
use crate::rows::{channel, pages, received, sent};
use crate::shown::Shown;
use std::alloc::{AllocError, Global};

/// What a line shows, where it is the line of anything: each line shows one thing at most.
#[tactic(auto, using(crate::proofs::FamilyLaws::no_family))]
pub fn read_line(alloc: Global, line: &str) -> Result<Option<Shown>, AllocError>
    ensures { IfOk result (Reads line.now) }
{
    if let Some(shown) = row(alloc, line)? {
        return Ok(Some(shown));
    }
    if let Some(shown) = event(line) {
        return Ok(Some(shown));
    }
    if let Some(shown) = entry(line) {
        return Ok(Some(shown));
    }
    answer(alloc, line)
}

/// What a line of the journal shows, but for its notifications.
#[tactic(auto, using(crate::proofs::FamilyLaws::no_entry))]
pub fn entry(line: &str) -> Option<Shown>
    ensures { ReadsOf Entries line.now result }
{
    if let Some(shown) = committed(line) {
        return Some(shown);
    }
    if let Some(shown) = aborted(line) {
        return Some(shown);
    }
    journal(line)
}

/// What a line shows of what a session did.
#[tactic(auto, using(crate::proofs::FamilyLaws::no_event))]
pub fn event(line: &str) -> Option<Shown>
    ensures { ReadsOf Events line.now result }
{
    if let Some(xid) = one_xid(line, "+publish ") {
        return Some(Shown::Publish { xid });
    }
    if let Some((from, to)) = two_xids(line, "+read ") {
        return Some(Shown::Read { from, to });
    }
    if let Some((base, point)) = two_xids(line, "+enlist ") {
        return Some(Shown::Enlist { base, point });
    }
    if let Some(full) = full_of(line) {
        return Some(Shown::QueueFull { full });
    }
    if line == "+leave" {
        return Some(Shown::Leave);
    }
    if let Some(shown) = measured(line) {
        return Some(shown);
    }
    if let Some(value) = one_xid(line, "+signal ") {
        return Some(Shown::Raise { value });
    }
    if let Some(value) = one_xid(line, "+await ") {
        return Some(Shown::Found { value });
    }
    let looks = one_long(line, "+timeout ")?;
    Some(Shown::TimedOut { looks })
}

/// What a line shows of what a session was answered, or of how its section ends.
#[tactic(auto, using(crate::proofs::FamilyLaws::no_answer))]
pub fn answer(alloc: Global, line: &str) -> Result<Option<Shown>, AllocError>
    ensures { IfOk result (ReadsOf Answers line.now) }
{
    if let Some(shown) = tagged(line) {
        return Ok(Some(shown));
    }
    if let Some(shown) = warning(line) {
        return Ok(Some(shown));
    }
    if let Some(shown) = refused(line) {
        return Ok(Some(shown));
    }
    if let Some(shown) = end(line) {
        return Ok(Some(shown));
    }
    no_savepoint(alloc, line)
}

/// What a row shows.
#[tactic(auto, using(crate::proofs::FamilyLaws::no_row))]
pub fn row(alloc: Global, line: &str) -> Result<Option<Shown>, AllocError>
    ensures { IfOk result (ReadsOf Rows line.now) }
{
    if let Some(shown) = sent(alloc, line)? {
        return Ok(Some(shown));
    }
    if let Some(shown) = received(alloc, line)? {
        return Ok(Some(shown));
    }
    if let Some(shown) = channel(alloc, line)? {
        return Ok(Some(shown));
    }
    Ok(pages(line))
}

ghost use Rattle.std.specs.Prelude.{◌≡◌, ◌↔◌, true, bytes_eq};
ghost use Rattle.pgn_answers.specs.Savepoints.{same_note};
ghost use Rattle.pgn_walk.specs.Same.{same_by};

use pgn_base::{Name, Needs, Note, Refusal, Tag, Warning, Which};

// The same tag.
fn same_tag(a: &Tag, b: &Tag) -> bool
    ensures { (result ≡ true) ↔ (a.now ≡ b.now) }
{
    match (a, b) {
        (Tag::Begin, Tag::Begin)
        | (Tag::Start, Tag::Start)
        | (Tag::Commit, Tag::Commit)
        | (Tag::Rollback, Tag::Rollback)
        | (Tag::Savepoint, Tag::Savepoint)
        | (Tag::Release, Tag::Release)
        | (Tag::Listen, Tag::Listen)
        | (Tag::Unlisten, Tag::Unlisten)
        | (Tag::Notify, Tag::Notify) => true,
        (Tag::Select(rows), Tag::Select(others)) => rows == others,
        _ => false,
    }
}

/// The same tag, and the same warning or none.
pub fn same_reply(
    tag: &Tag,
    warning: &Option<Warning>,
    other: &Tag,
    before: &Option<Warning>,
) -> bool
    ensures { (result ≡ true) ↔ ((tag.now ≡ other.now) × (warning.now ≡ before.now)) }
{
    same_tag(tag, other) && same_warning(warning, before)
}

// The same warning, or none.
fn same_warning(a: &Option<Warning>, b: &Option<Warning>) -> bool
    ensures { (result ≡ true) ↔ (a.now ≡ b.now) }
{
    match (a, b) {
        (None, None)
        | (Some(Warning::AlreadyInBlock), Some(Warning::AlreadyInBlock))
        | (Some(Warning::NotInBlock), Some(Warning::NotInBlock)) => true,
        _ => false,
    }
}

// The same limit.
fn same_which(a: &Which, b: &Which) -> bool
    ensures { (result ≡ true) ↔ (a.now ≡ b.now) }
{
    match (a, b) {
        (Which::ChannelEmpty, Which::ChannelEmpty)
        | (Which::ChannelTooLong, Which::ChannelTooLong)
        | (Which::PayloadTooLong, Which::PayloadTooLong) => true,
        _ => false,
    }
}

// The same command.
fn same_needs(a: &Needs, b: &Needs) -> bool
    ensures { (result ≡ true) ↔ (a.now ≡ b.now) }
{
    match (a, b) {
        (Needs::Savepoint, Needs::Savepoint)
        | (Needs::RollbackTo, Needs::RollbackTo)
        | (Needs::Release, Needs::Release) => true,
        _ => false,
    }
}

/// The same refusal.
pub fn same_refusal(a: &Refusal, b: &Refusal) -> bool
    ensures { (result ≡ true) ↔ (a.now ≡ b.now) }
{
    match (a, b) {
        (Refusal::Syntax { at }, Refusal::Syntax { at: other }) => at == other,
        (Refusal::Bounds { which }, Refusal::Bounds { which: other }) => same_which(which, other),
        (Refusal::NeedsBlock { what }, Refusal::NeedsBlock { what: other }) => {
            same_needs(what, other)
        }
        (Refusal::NoSavepoint { name }, Refusal::NoSavepoint { name: other }) => name == other,
        (Refusal::Aborted, Refusal::Aborted) | (Refusal::QueueFull, Refusal::QueueFull) => true,
        _ => false,
    }
}

/// The same names, in the same order.
#[tactic(auto, using(crate::proofs::SameLaws::names_are))]
pub fn same_names(a: &[Name], b: &[Name]) -> bool
    ensures { (result ≡ true) ↔ (a.now ≡ b.now) }
{
    compare_names(a, b)
}

// One after another.
fn compare_names(a: &[Name], b: &[Name]) -> bool
    ensures { result ≡ same_by bytes_eq a.now b.now }
{
    if a.len() != b.len() {
        return false;
    }
    for at in 0..a.len() {
        if a[at] != b[at] {
            return false;
        }
    }
    true
}

/// The same notifications, in the same order.
#[tactic(auto, using(crate::proofs::SameLaws::notes_are))]
pub fn same_notes(a: &[Note], b: &[Note]) -> bool
    ensures { (result ≡ true) ↔ (a.now ≡ b.now) }
{
    compare_notes(a, b)
}

// One after another.
fn compare_notes(a: &[Note], b: &[Note]) -> bool
    ensures { result ≡ same_by same_note a.now b.now }
{
    if a.len() != b.len() {
        return false;
    }
    for at in 0..a.len() {
        if a[at] != b[at] {
            return false;
        }
    }
    true
}

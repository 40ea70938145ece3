ghost use Rattle.std.specs.Prelude.{◌≡◌, ℕ, ◌++◌, codes, List, Option, MatchOption, IfOk};
ghost use Rattle.pgn_base.specs.declared.answers.Refusal.{Refusal};
ghost use Rattle.pgn_base.specs.declared.answers.Refusal.TheVariants as refusal;
ghost use Rattle.pgn_base.specs.declared.answers.Tag.{Tag};
ghost use Rattle.pgn_base.specs.declared.answers.Warning.{Warning};
ghost use Rattle.pgn_answers.specs.Refusals.{bounds_message, needs_text};
ghost use Rattle.pgn_base.specs.declared.answers.Which.{Which};
ghost use Rattle.pgn_base.specs.declared.answers.Needs.{Needs};
ghost use Rattle.pgn_lines.specs.Fields.{IsSavepoint, savepoint_line};
ghost use Rattle.pgn_lines.specs.Shown.{NamesNoSavepoint, Shows, Unshown};
ghost use Rattle.pgn_lines.specs.declared.shown.Shown.TheVariants as show;

use crate::fields::{one_short, one_xid};
use crate::numbers::{after, before};
use crate::quoted::named;
use crate::shown::Shown;
use pgn_base::{Needs, Refusal, Tag, Warning, Which};
use std::alloc::{AllocError, Global};

// A warning.
#[tactic(auto, using(crate::proofs::AnswerLaws::no_warning))]
pub fn warning(line: &str) -> Option<Shown>
    ensures { MatchOption result
        ((warning : Warning) → Unshown line.now (show.Warn warning))
        (Shows line.now) }
{
    if line == "WARNING: 25001: there is already a transaction in progress" {
        return Some(Shown::Warn {
            warning: Warning::AlreadyInBlock,
        });
    }
    if line == "WARNING: 25P01: there is no transaction in progress" {
        return Some(Shown::Warn {
            warning: Warning::NotInBlock,
        });
    }
    None
}

/// A command's tag.
pub fn tagged(line: &str) -> Option<Shown>
    ensures { MatchOption result
        ((done : Tag) → Unshown line.now (show.Tagged done))
        (Shows line.now) }
{
    let tag = match line {
        "BEGIN" => Tag::Begin,
        "START TRANSACTION" => Tag::Start,
        "COMMIT" => Tag::Commit,
        "ROLLBACK" => Tag::Rollback,
        "SAVEPOINT" => Tag::Savepoint,
        "RELEASE" => Tag::Release,
        "LISTEN" => Tag::Listen,
        "UNLISTEN" => Tag::Unlisten,
        "NOTIFY" => Tag::Notify,
        _ => Tag::Select(one_short(line, "SELECT ")?),
    };
    Some(Shown::Tagged { tag })
}

/// A refusal that names no savepoint.
#[tactic(auto, using(crate::proofs::AnswerLaws::no_refusal))]
pub fn refused(line: &str) -> Option<Shown>
    ensures { MatchOption result
        ((refusal : Refusal) → NamesNoSavepoint refusal → Unshown line.now (show.Refuse refusal))
        (Shows line.now) }
{
    if let Some(which) = bounds_of(line) {
        let refusal = Refusal::Bounds { which };
        return Some(Shown::Refuse { refusal });
    }
    if let Some(what) = needs_of(line) {
        let refusal = Refusal::NeedsBlock { what };
        return Some(Shown::Refuse { refusal });
    }
    if line
        == "ERROR: 25P02: current transaction is aborted, commands ignored until end of transaction block"
    {
        let refusal = Refusal::Aborted;
        return Some(Shown::Refuse { refusal });
    }
    if line == "ERROR: 54000: too many notifications in the NOTIFY queue" {
        let refusal = Refusal::QueueFull;
        return Some(Shown::Refuse { refusal });
    }
    let Some(at) = one_short(line, "ERROR: 42601: syntax error at byte ") else {
        return None;
    };
    let refusal = Refusal::Syntax { at };
    Some(Shown::Refuse { refusal })
}

// The limit that a notification goes past.
fn bounds_of(line: &str) -> Option<Which>
    ensures { MatchOption result
        ((which : Which) → codes "ERROR: 22023: " ++ bounds_message which ≡ line.now → ⊥)
        (λ which. codes "ERROR: 22023: " ++ bounds_message which ≡ line.now) }
{
    match line {
        "ERROR: 22023: channel name cannot be empty" => Some(Which::ChannelEmpty),
        "ERROR: 22023: channel name too long" => Some(Which::ChannelTooLong),
        "ERROR: 22023: payload string too long" => Some(Which::PayloadTooLong),
        _ => None,
    }
}

// The command that can only be used in a block.
fn needs_of(line: &str) -> Option<Needs>
    ensures { MatchOption result
        ((what : Needs) → codes "ERROR: 25P01: " ++ needs_text what ++ codes " can only be used in transaction blocks" ≡ line.now → ⊥)
        (λ what. codes "ERROR: 25P01: " ++ needs_text what ++ codes " can only be used in transaction blocks" ≡ line.now) }
{
    match line {
        "ERROR: 25P01: SAVEPOINT can only be used in transaction blocks" => Some(Needs::Savepoint),
        "ERROR: 25P01: ROLLBACK TO SAVEPOINT can only be used in transaction blocks" => {
            Some(Needs::RollbackTo)
        }
        "ERROR: 25P01: RELEASE SAVEPOINT can only be used in transaction blocks" => {
            Some(Needs::Release)
        }
        _ => None,
    }
}

/// A refusal that names a savepoint, which stands there as it is.
pub fn no_savepoint(alloc: Global, line: &str) -> Result<Option<Shown>, AllocError>
    ensures { IfOk result (λ read. MatchOption read
        ((name : List ℕ) → Unshown line.now (show.Refuse (refusal.NoSavepoint name)))
        (Shows line.now)) }
{
    let Some(text) = savepoint_of(line) else {
        return Ok(None);
    };
    let Some(name) = named(alloc, text)? else {
        return Ok(None);
    };
    let refusal = Refusal::NoSavepoint { name };
    Ok(Some(Shown::Refuse { refusal }))
}

// What stands in the place of the savepoint's name.
fn savepoint_of(line: &str) -> Option<&str>
    ensures { MatchOption result
        ((name : List ℕ) → savepoint_line name ≡ line.now → ⊥)
        (λ text. IsSavepoint line.now text.now) }
{
    let Some(start) = after(line, "ERROR: 3B001: savepoint \"") else {
        return None;
    };
    let Some(text) = before(start, "\" does not exist") else {
        return None;
    };
    Some(text)
}

/// The last line of a section.
#[tactic(auto, using(crate::proofs::AnswerLaws::no_end))]
pub fn end(line: &str) -> Option<Shown>
    ensures { MatchOption result
        ((mark : Option ℕ) → Unshown line.now (show.End mark))
        (Shows line.now) }
{
    if line == "end" {
        return Some(Shown::End { mark: None });
    }
    let mark = one_xid(line, "end mark ")?;
    Some(Shown::End { mark: Some(mark) })
}

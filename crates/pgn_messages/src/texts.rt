ghost use Rattle.std.specs.Prelude.{◌≡◌, ◌+◌, ◌≤◌, ◌++◌, decimal, length, IfOk};
ghost use Rattle.pgn_answers.specs.Refusals.{bounds_message, refusal_code, refusal_message, tag_text, warning_code, warning_message};
ghost use Rattle.pgn_messages.specs.Server.{share};

use crate::bytes::Bytes;
use pgn_base::{Name, Needs, Refusal, Tag, Usage, Warning, Which};
use std::alloc::{AllocError, Global};

// A text and a number behind it.
fn numbered(alloc: Global, text: &[u8], n: u64) -> Result<Bytes, AllocError>
    ensures value { IfOk result (λ bytes. bytes ≡ text.now ++ decimal n) }
    ensures short { IfOk result (λ bytes. length bytes ≤ length text.now + 40) }
{
    let mut bytes = Bytes::of(alloc, text)?;
    bytes.put_decimal(n)?;
    Ok(bytes)
}

/// A command's tag: at most 50 bytes.
pub fn tag_bytes(alloc: Global, tag: &Tag) -> Result<Bytes, AllocError>
    ensures value { IfOk result (λ bytes. bytes ≡ tag_text tag.now) }
    ensures short { IfOk result (λ bytes. length bytes ≤ 50) }
{
    match tag {
        Tag::Begin => Bytes::of(alloc, b"BEGIN"),
        Tag::Start => Bytes::of(alloc, b"START TRANSACTION"),
        Tag::Commit => Bytes::of(alloc, b"COMMIT"),
        Tag::Rollback => Bytes::of(alloc, b"ROLLBACK"),
        Tag::Savepoint => Bytes::of(alloc, b"SAVEPOINT"),
        Tag::Release => Bytes::of(alloc, b"RELEASE"),
        Tag::Listen => Bytes::of(alloc, b"LISTEN"),
        Tag::Unlisten => Bytes::of(alloc, b"UNLISTEN"),
        Tag::Notify => Bytes::of(alloc, b"NOTIFY"),
        Tag::Select(rows) => numbered(alloc, b"SELECT ", u64::from(*rows)),
    }
}

/// How much of the queue is in use: at most 90 bytes.
pub fn share_bytes(alloc: Global, usage: &Usage) -> Result<Bytes, AllocError>
    ensures value { IfOk result (λ bytes. bytes ≡ share usage.now) }
    ensures short { IfOk result (λ bytes. length bytes ≤ 90) }
{
    let mut bytes = Bytes::new(alloc);
    bytes.put_decimal(usage.occupied)?;
    bytes.put(b"/")?;
    bytes.put_decimal(u64::from(usage.limit))?;
    Ok(bytes)
}

/// A warning's code.
pub fn code_of_warning(warning: Warning) -> &'static [u8]
    ensures value { result.now ≡ warning_code warning }
    ensures short { length result.now ≡ 5 }
{
    match warning {
        Warning::AlreadyInBlock => b"25001",
        Warning::NotInBlock => b"25P01",
    }
}

/// A warning's text.
pub fn text_of_warning(warning: Warning) -> &'static [u8]
    ensures value { result.now ≡ warning_message warning }
    ensures short { length result.now ≤ 100 }
{
    match warning {
        Warning::AlreadyInBlock => b"there is already a transaction in progress",
        Warning::NotInBlock => b"there is no transaction in progress",
    }
}

/// A refusal's code.
pub fn code_of_refusal(refusal: &Refusal) -> &'static [u8]
    ensures value { result.now ≡ refusal_code refusal.now }
    ensures short { length result.now ≡ 5 }
{
    match refusal {
        Refusal::Syntax { .. } => b"42601",
        Refusal::Bounds { .. } => b"22023",
        Refusal::NeedsBlock { .. } => b"25P01",
        Refusal::NoSavepoint { .. } => b"3B001",
        Refusal::Aborted => b"25P02",
        Refusal::QueueFull => b"54000",
    }
}

// What is said of each limit.
fn text_of_bounds(which: Which) -> &'static [u8]
    ensures value { result.now ≡ bounds_message which }
    ensures short { length result.now ≤ 100 }
{
    match which {
        Which::ChannelEmpty => b"channel name cannot be empty",
        Which::ChannelTooLong => b"channel name too long",
        Which::PayloadTooLong => b"payload string too long",
    }
}

// What is said where a command can only be used in a block.
fn text_of_needs(what: Needs) -> &'static [u8]
    ensures value { result.now ≡ refusal_message (Refusal.NeedsBlock what) }
    ensures short { length result.now ≤ 100 }
{
    match what {
        Needs::Savepoint => b"SAVEPOINT can only be used in transaction blocks",
        Needs::RollbackTo => b"ROLLBACK TO SAVEPOINT can only be used in transaction blocks",
        Needs::Release => b"RELEASE SAVEPOINT can only be used in transaction blocks",
    }
}

// What is said of a savepoint that there is not.
fn text_of_savepoint(alloc: Global, name: &Name) -> Result<Bytes, AllocError>
    ensures value { IfOk result (λ bytes. bytes ≡ refusal_message (Refusal.NoSavepoint name.now)) }
    ensures short { IfOk result (λ bytes. length bytes ≤ 100) }
{
    let mut bytes = Bytes::of(alloc, b"savepoint \"")?;
    bytes.put(name.as_bytes())?;
    bytes.put(b"\" does not exist")?;
    Ok(bytes)
}

/// A refusal's text: at most 100 bytes.
pub fn text_of_refusal(alloc: Global, refusal: &Refusal) -> Result<Bytes, AllocError>
    ensures value { IfOk result (λ bytes. bytes ≡ refusal_message refusal.now) }
    ensures short { IfOk result (λ bytes. length bytes ≤ 100) }
{
    match refusal {
        Refusal::Syntax { at } => numbered(alloc, b"syntax error at byte ", u64::from(*at)),
        Refusal::Bounds { which } => Bytes::of(alloc, text_of_bounds(*which)),
        Refusal::NeedsBlock { what } => Bytes::of(alloc, text_of_needs(*what)),
        Refusal::NoSavepoint { name } => text_of_savepoint(alloc, name),
        Refusal::Aborted => Bytes::of(
            alloc,
            b"current transaction is aborted, commands ignored until end of transaction block",
        ),
        Refusal::QueueFull => Bytes::of(alloc, b"too many notifications in the NOTIFY queue"),
    }
}

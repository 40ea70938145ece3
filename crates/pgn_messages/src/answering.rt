#![tactic(auto, using(crate::proofs::BytesLaws::joins))]

ghost use Rattle.std.specs.Prelude.{◌≡◌, [], ◌++◌, codes, flat_map, IfOk, OnOk};
ghost use Rattle.pgn_messages.specs.Server.{complete, described, fraction, row};
ghost use Rattle.pgn_messages.specs.Messages.{notices};
ghost use Rattle.pgn_messages.specs.Served.{call_column, call_rows, complained, told_answer, told_item, told_refusal};

use crate::cutting::put_cut_notices;
use crate::wordings::code_of_cause;
use crate::{Asked, Bytes};
use pgn_answers::BlockState;
use pgn_base::{Command, Refusal, Tag, Usage, Warning};
use pgn_model::Item;
use pgn_requests::{Complaint, Wording};
use std::alloc::{AllocError, Global};

/// The whole answer to a query: what is cut in it, the messages of the items of its line behind the line itself, and ReadyForQuery with the block's state
/// after them.
pub fn answer_of(
    alloc: Global,
    query: &Asked,
    items: &[Item],
    state: BlockState,
) -> Result<Bytes, AllocError>
    ensures { IfOk result (λ bytes. bytes ≡ told_answer query.now items.now state) }
{
    let mut bytes = Bytes::new(alloc);
    put_cut_notices(alloc, &mut bytes, query)?;
    bytes.put_first(&query.command)?;
    put_items(alloc, &mut bytes, query, items)?;
    bytes.put_ready(state)?;
    Ok(bytes)
}

// The messages of the items of a query's line.
fn put_items(
    alloc: Global,
    bytes: &mut Bytes,
    query: &Asked,
    items: &[Item],
) -> Result<(), AllocError>
    ensures { OnOk result (bytes.new ≡ bytes.old ++ flat_map (told_item query.now) items.now) }
{
    for item in items {
        put_item(alloc, bytes, query, item)?;
    }
    Ok(())
}

// The messages of an item of a query's line.
fn put_item(alloc: Global, bytes: &mut Bytes, query: &Asked, item: &Item) -> Result<(), AllocError>
    ensures { OnOk result (bytes.new ≡ bytes.old ++ told_item query.now item.now) }
{
    match item {
        Item::Reply { tag, warning } => put_reply(alloc, bytes, &query.command, tag, warning),
        Item::Refuse { refusal } => {
            put_refusal(alloc, bytes, &query.command, &query.wording, refusal)
        }
        Item::Channels { names } => bytes.put_channels(names.as_slice()),
        Item::Used { usage } => put_usage(alloc, bytes, usage),
        Item::Read { got, .. } => bytes.put_notifications(got.as_slice()),
        _ => Ok(()),
    }
}

// A reply: its warning, the row of a call of pg_notify, and the command's end.
fn put_reply(
    alloc: Global,
    bytes: &mut Bytes,
    command: &Command,
    tag: &Tag,
    warning: &Option<Warning>,
) -> Result<(), AllocError>
    ensures { OnOk result (bytes.new ≡ bytes.old
        ++ (notices warning.now ++ call_rows command.now ++ complete tag.now)) }
{
    bytes.put_warning(warning)?;
    put_call_rows(bytes, command)?;
    bytes.put_complete(alloc, tag)?;
    Ok(())
}

// The row of a call of pg_notify.
fn put_call_rows(bytes: &mut Bytes, command: &Command) -> Result<(), AllocError>
    ensures { OnOk result (bytes.new ≡ bytes.old ++ call_rows command.now) }
{
    match command {
        Command::PgNotify(_) => put_call_row(bytes),
        _ => Ok(()),
    }
}

fn put_call_row(bytes: &mut Bytes) -> Result<(), AllocError>
    ensures { OnOk result (bytes.new ≡ bytes.old ++ (call_column ++ row [])) }
{
    put_call_column(bytes)?;
    bytes.put_row(b"")?;
    Ok(())
}

// Its column alone.
fn put_call_column(bytes: &mut Bytes) -> Result<(), AllocError>
    ensures { OnOk result (bytes.new ≡ bytes.old ++ call_column) }
{
    bytes.put_described(b"pg_notify", 2278, 4)
}

// The row of the queue's usage.
fn put_usage(alloc: Global, bytes: &mut Bytes, usage: &Usage) -> Result<(), AllocError>
    ensures { OnOk result (bytes.new ≡ bytes.old
        ++ (described (codes "pg_notification_queue_usage") 701 8 ++ row (fraction usage.now))) }
{
    bytes.put_described(b"pg_notification_queue_usage", 701, 8)?;
    bytes.put_fraction(alloc, usage)?;
    Ok(())
}

// A refusal, in the query's own words where it has some.
fn put_refusal(
    alloc: Global,
    bytes: &mut Bytes,
    command: &Command,
    wording: &Wording,
    refusal: &Refusal,
) -> Result<(), AllocError>
    ensures { OnOk result (bytes.new ≡ bytes.old
        ++ told_refusal command.now wording.now refusal.now) }
{
    match refusal {
        Refusal::QueueFull => {
            put_call_rows(bytes, command)?;
            bytes.put_error(alloc, refusal)?;
            Ok(())
        }
        Refusal::Bounds { .. } => match wording {
            Wording::Called => {
                put_call_column(bytes)?;
                bytes.put_error(alloc, refusal)?;
                Ok(())
            }
            Wording::Plain => bytes.put_error(alloc, refusal),
            Wording::Refused(complaint) => put_complaint(bytes, complaint),
        },
        Refusal::Syntax { .. } => match wording {
            Wording::Refused(complaint) => put_complaint(bytes, complaint),
            Wording::Plain => bytes.put_error(alloc, refusal),
            Wording::Called => bytes.put_error(alloc, refusal),
        },
        _ => bytes.put_error(alloc, refusal),
    }
}

// A refusal that is told by this.
fn put_complaint(bytes: &mut Bytes, complaint: &Complaint) -> Result<(), AllocError>
    ensures { OnOk result (bytes.new ≡ bytes.old ++ complained complaint.now) }
{
    bytes.put_error_of(code_of_cause(complaint.cause), complaint.text.as_bytes())
}

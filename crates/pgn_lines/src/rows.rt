ghost use Rattle.std.specs.Prelude.{◌≡◌, ℕ, List, MatchOption, IfOk};
ghost use Rattle.pgn_base.specs.declared.note.Delivery.{Delivery};
ghost use Rattle.pgn_base.specs.declared.note.Note.{Note};
ghost use Rattle.pgn_lines.specs.Rows.{IsSender, received_text};
ghost use Rattle.pgn_lines.specs.Shown.{IsShort, IsXid, Shows, Unshown};
ghost use Rattle.pgn_lines.specs.declared.shown.Shown.TheVariants as show;

use crate::numbers::{after, long, parted, short, short_then, xid_then};
use crate::quoted::{note_of, quoted_name};
use crate::shown::Shown;
use pgn_base::{Delivery, Xid};
use std::alloc::{AllocError, Global};

/// The row of a usage.
pub fn pages(line: &str) -> Option<Shown>
    ensures { MatchOption result
        ((occupied limit : ℕ) → Unshown line.now (show.Pages occupied limit))
        (Shows line.now) }
{
    let Some(row) = after(line, "  ") else {
        return None;
    };
    let Some((in_use, last)) = parted(row, '/') else {
        return None;
    };
    let Some(occupied) = long(in_use) else {
        return None;
    };
    let Some(limit) = short(last) else {
        return None;
    };
    Some(Shown::Pages { occupied, limit })
}

/// A notification of the journal.
pub fn sent(alloc: Global, line: &str) -> Result<Option<Shown>, AllocError>
    ensures { IfOk result (λ read. MatchOption read
        ((note : Note) → Unshown line.now (show.Sent note))
        (Shows line.now)) }
{
    let Some(text) = after(line, "  ") else {
        return Ok(None);
    };
    let Some(note) = note_of(alloc, text)? else {
        return Ok(None);
    };
    Ok(Some(Shown::Sent { note }))
}

/// The row of a channel.
pub fn channel(alloc: Global, line: &str) -> Result<Option<Shown>, AllocError>
    ensures { IfOk result (λ read. MatchOption read
        ((name : List ℕ) → Unshown line.now (show.Channel name))
        (Shows line.now)) }
{
    let Some(text) = after(line, "  ") else {
        return Ok(None);
    };
    let Some(name) = quoted_name(alloc, text)? else {
        return Ok(None);
    };
    Ok(Some(Shown::Channel { name }))
}

// Who sent a notification that was received, and the text of the notification.
#[derive(Clone, Copy)]
struct Sender<'a> {
    xid: Xid,
    pid: u32,
    text: &'a str,
}

fn sender_of(line: &str) -> Option<Sender<'_>>
    ensures { MatchOption result
        ((xid pid : ℕ) (text : List ℕ) → IsXid xid → IsShort pid
        → received_text xid pid text ≡ line.now → ⊥)
        (λ sender. IsSender line.now sender.xid sender.pid sender.text.now) }
{
    let Some(row) = after(line, "  ") else {
        return None;
    };
    let Some(xid) = xid_then(row, "") else {
        return None;
    };
    let Some(pid) = short_then(xid.1, "") else {
        return None;
    };
    Some(Sender {
        xid: xid.0,
        pid: pid.0,
        text: pid.1,
    })
}

/// A notification that was received.
pub fn received(alloc: Global, line: &str) -> Result<Option<Shown>, AllocError>
    ensures { IfOk result (λ read. MatchOption read
        ((delivery : Delivery) → Unshown line.now (show.Received delivery))
        (Shows line.now)) }
{
    let Some(sender) = sender_of(line) else {
        return Ok(None);
    };
    let Some(note) = note_of(alloc, sender.text)? else {
        return Ok(None);
    };
    let delivery = Delivery {
        xid: sender.xid,
        pid: sender.pid,
        note,
    };
    Ok(Some(Shown::Received { delivery }))
}

ghost use Rattle.std.specs.Prelude.{◌≡◌, ℕ, ◌↔◌, IfOk, IfErr, IsErrOf};
ghost use Rattle.pgn_base.specs.declared.note.Note.{Note};
ghost use Rattle.pgn_journal.specs.Bytes.{entry_length};
ghost use Rattle.pgn_entry.specs.Parts.{IsHeadOf, BodyReadsAs, FillerReadsAs};
ghost use Rattle.pgn_entry.specs.Reading.{IsRefused, BeginsEntry, BeginsFiller, AnEntry, AFiller, ReadsAs, body, told};

use crate::format::{header_len, least_len};
use crate::head::{Head, is_head_clean};
use crate::length::{is_entry_length, length_of};
use crate::texts::{is_all_zero, is_name, is_payload, split_at_zero};
use crate::{EntryFault, EntryView};
use pgn_base::Format;

// The head of these bytes and the body after it, where there are as many bytes as it says, it says a length that fits, and it ends
// with the zero bytes that it has.
#[tactic(auto, unfolding(crate::specs::Reading::body))]
fn read_head(format: Format, bytes: &[u8]) -> Result<(Head, &[u8]), EntryFault>
    ensures head { IfOk result (λ parts. IsHeadOf format bytes.now parts.0) }
    ensures rest { IfOk result (λ parts. parts.1.now ≡ body format bytes.now) }
    ensures fault { IfErr result (λ fault. IsRefused format fault bytes.now) }
{
    if bytes.len() < least_len(format) {
        return Err(EntryFault::Short);
    }
    let head = Head::read(format, bytes);
    let len = head.len as usize;
    if bytes.len() < len {
        return Err(EntryFault::Short);
    }
    if !is_entry_length(format, len) {
        return Err(EntryFault::BadLength);
    }
    if !is_head_clean(format, bytes) {
        return Err(EntryFault::BadPad);
    }
    Ok((head, &bytes[header_len(format)..len]))
}

// The filler with this head, whose body stands after it up to its length.
fn read_filler<'a>(head: &Head, body: &[u8]) -> Result<EntryView<'a>, EntryFault>
    ensures { FillerReadsAs head.now body.now (told result) }
{
    if !is_all_zero(body) {
        return Err(EntryFault::BadText);
    }
    Ok(EntryView::Filler {
        len: head.len,
        xid: head.xid,
        pid: head.pid,
    })
}

// The entry with this head, whose body stands after it up to its length.
#[tactic(auto, unfolding(pgn_journal::specs::Bytes::entry_length))]
fn read_body<'a>(format: Format, head: &Head, body: &'a [u8]) -> Result<EntryView<'a>, EntryFault>
    ensures { BodyReadsAs format head.now body.now (told result) }
{
    let Some((channel, rest)) = split_at_zero(body) else {
        return Err(EntryFault::NoNul);
    };
    let Some((payload, padding)) = split_at_zero(rest) else {
        return Err(EntryFault::NoNul);
    };
    if !is_name(channel) || !is_payload(payload) {
        return Err(EntryFault::BadText);
    }
    let len = length_of(format, channel.len(), payload.len());
    if head.len as usize != len || !is_all_zero(padding) {
        return Err(EntryFault::BadPad);
    }
    Ok(EntryView::Entry {
        len: head.len,
        db: head.db,
        xid: head.xid,
        pid: head.pid,
        channel,
        payload,
    })
}

/// The entry or the filler of this format that these bytes begin with, whatever follows it. The faults are tested in the order that
/// `EntryFault` has.
pub fn read_entry(format: Format, bytes: &[u8]) -> Result<EntryView<'_>, EntryFault>
    ensures reads { ReadsAs format bytes.now (told result) }
    ensures entry { (len : ℕ) (note : Note) (db xid pid : ℕ)
        → (told result ≡ AnEntry len note db xid pid)
        ↔ ((len ≡ entry_length format note) × BeginsEntry format note db xid pid bytes.now) }
    ensures filler { (len xid pid : ℕ)
        → (told result ≡ AFiller len xid pid) ↔ BeginsFiller format len xid pid bytes.now }
    ensures short { IsErrOf result EntryFault.Short ↔ IsRefused format EntryFault.Short bytes.now }
    ensures bad_length { IsErrOf result EntryFault.BadLength
        ↔ IsRefused format EntryFault.BadLength bytes.now }
    ensures no_nul { IsErrOf result EntryFault.NoNul ↔ IsRefused format EntryFault.NoNul bytes.now }
    ensures bad_text { IsErrOf result EntryFault.BadText
        ↔ IsRefused format EntryFault.BadText bytes.now }
    ensures bad_pad { IsErrOf result EntryFault.BadPad
        ↔ IsRefused format EntryFault.BadPad bytes.now }
{
    let (head, body) = read_head(format, bytes)?;
    if head.db == 0 {
        read_filler(&head, body)
    } else {
        read_body(format, &head, body)
    }
}

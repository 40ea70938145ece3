ghost use Rattle.std.specs.Prelude.{◌≡◌, IfOk};
ghost use Rattle.pgn_base.specs.declared.note.Note.{Note};
ghost use Rattle.pgn_base.specs.Texts.{IsName, IsPayload};
ghost use Rattle.pgn_journal.specs.Packing.{Sender};
ghost use Rattle.pgn_journal.specs.Pieces.{AnEntry, piece_bytes, IsReadable};
ghost use Rattle.pgn_wordhub.specs.Walks.{HasEntry, ArePartsOf};

use pgn_base::{Delivery, Format, Name, Note, Payload, Xid};
use pgn_entry::{EntryView, read_piece};
use std::alloc::{AllocError, Global};
use std::str;

// The name of these bytes.
fn name_of(alloc: Global, bytes: &[u8]) -> Result<Name, AllocError>
    requires { IsName bytes.now }
    ensures { IfOk result (λ name. name ≡ bytes.now) }
{
    let Ok(text) = str::from_utf8(bytes) else {
        unreachable!()
    };
    Name::of_valid(alloc, text)
}

// The payload of these bytes.
fn payload_of(alloc: Global, bytes: &[u8]) -> Result<Payload, AllocError>
    requires { IsPayload bytes.now }
    ensures { IfOk result (λ payload. payload ≡ bytes.now) }
{
    let Ok(text) = str::from_utf8(bytes) else {
        unreachable!()
    };
    Payload::of_valid(alloc, text)
}

// What a reader needs of an entry.
#[derive(Clone, Copy)]
pub(crate) struct EntryParts<'a> {
    pub xid: u64,
    pub pid: u32,
    pub channel: &'a [u8],
    pub payload: &'a [u8],
}

// The parts of the entry in this format that these bytes are.
pub(crate) fn entry_parts(format: Format, bytes: &[u8]) -> EntryParts<'_>
    requires { HasEntry format bytes.now }
    ensures { (note : Note) (sender : Sender) → IsReadable format (AnEntry note sender)
        → bytes.now ≡ piece_bytes format (AnEntry note sender)
        → ArePartsOf note sender result.xid result.pid result.channel.now result.payload.now }
{
    match read_piece(format, bytes) {
        EntryView::Entry {
            xid,
            pid,
            channel,
            payload,
            ..
        } => EntryParts {
            xid,
            pid,
            channel,
            payload,
        },
        EntryView::Filler { .. } => unreachable!(),
    }
}

// A notification as it is received.
pub(crate) fn delivery_of(
    alloc: Global,
    xid: Xid,
    pid: u32,
    channel: &[u8],
    payload: &[u8],
) -> Result<Delivery, AllocError>
    requires channel { IsName channel.now }
    requires payload { IsPayload payload.now }
    ensures { IfOk result (λ delivery. delivery ≡ record {
      xid = xid;
      pid = pid;
      note = record { channel = channel.now; payload = payload.now };
    }) }
{
    let channel = name_of(alloc, channel)?;
    let payload = payload_of(alloc, payload)?;
    Ok(Delivery {
        xid,
        pid,
        note: Note { channel, payload },
    })
}

ghost use Rattle.std.specs.Prelude.{◌≡◌, ◌+◌, ◌≤◌, ◌↔◌, IsTrue};
ghost use Rattle.pgn_base.specs.declared.limits.TheConstants.{NAME_BYTES_MAX, PAYLOAD_BYTES_MAX};
ghost use Rattle.pgn_journal.specs.Bytes.{header_bytes, aligned, entry_length, IsEntryLength};

use crate::format::{header_len, least_len, length_unit};
use pgn_base::{Format, Note, PAGE_BYTES};

/// The length of an entry with a channel and a payload of so many bytes: each has a zero byte after it.
pub fn length_of(format: Format, channel_len: usize, payload_len: usize) -> usize
    requires name { channel_len ≤ NAME_BYTES_MAX }
    requires text { payload_len ≤ PAYLOAD_BYTES_MAX }
    ensures { result
        ≡ aligned format (header_bytes format + (channel_len + 1) + (payload_len + 1)) }
{
    let unit = length_unit(format);
    (header_len(format) + (channel_len + 1) + (payload_len + 1)).div_ceil(unit) * unit
}

/// How many bytes the entry of a notification has.
pub fn entry_len(format: Format, note: &Note) -> u32
    ensures value { result ≡ entry_length format note.now }
    ensures fits { IsEntryLength format result }
{
    length_of(
        format,
        note.channel.as_bytes().len(),
        note.payload.as_bytes().len(),
    ) as u32
}

/// Whether an entry or a filler may have this length.
pub fn is_entry_length(format: Format, len: usize) -> bool
    ensures { IsTrue result ↔ IsEntryLength format len }
{
    (least_len(format)..=PAGE_BYTES).contains(&len) && len % length_unit(format) == 0
}

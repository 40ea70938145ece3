ghost use Rattle.std.specs.Prelude.{◌≡◌, ◌≤◌, ◌↔◌, IsTrue, length};
ghost use Rattle.pgn_journal.specs.Bytes.{header_bytes};
ghost use Rattle.pgn_entry.specs.Reading.{IsAllZero, stated_length, stated_db, stated_xid, stated_pid, head_padding};

use crate::format::pid_cell;
use crate::texts::is_all_zero;
use byteorder::{ByteOrder, LittleEndian};
use pgn_base::{CELL_BYTES, Format};

/// The numbers at the head of an entry or a filler.
#[derive(Clone, Copy)]
pub struct Head {
    pub len: u32,
    pub db: u32,
    pub xid: u64,
    pub pid: u32,
}

// The number of the transaction.
fn read_xid(format: Format, bytes: &[u8]) -> u64
    requires { header_bytes format ≤ length bytes.now }
    ensures { result ≡ stated_xid format bytes.now }
{
    match format {
        Format::One => u64::from(LittleEndian::read_u32(&bytes[8..])),
        Format::Two => LittleEndian::read_u64(&bytes[8..]),
    }
}

// The process number.
fn read_pid(format: Format, bytes: &[u8]) -> u32
    requires { header_bytes format ≤ length bytes.now }
    ensures { result ≡ stated_pid format bytes.now }
{
    LittleEndian::read_u32(&bytes[CELL_BYTES * pid_cell(format)..])
}

impl Head {
    /// The numbers that these bytes begin with.
    pub fn read(format: Format, bytes: &[u8]) -> Head
        requires { header_bytes format ≤ length bytes.now }
        ensures len { result.len ≡ stated_length bytes.now }
        ensures db { result.db ≡ stated_db bytes.now }
        ensures xid { result.xid ≡ stated_xid format bytes.now }
        ensures pid { result.pid ≡ stated_pid format bytes.now }
    {
        Head {
            len: LittleEndian::read_u32(bytes),
            db: LittleEndian::read_u32(&bytes[4..]),
            xid: read_xid(format, bytes),
            pid: read_pid(format, bytes),
        }
    }
}

/// Whether the bytes that end the head after its numbers are zero. In format One there are none.
pub fn is_head_clean(format: Format, bytes: &[u8]) -> bool
    requires { header_bytes format ≤ length bytes.now }
    ensures { IsTrue result ↔ IsAllZero (head_padding format bytes.now) }
{
    match format {
        Format::One => true,
        Format::Two => is_all_zero(&bytes[20..24]),
    }
}

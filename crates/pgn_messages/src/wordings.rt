ghost use Rattle.std.specs.Prelude.{◌≡◌, ◌≤◌, length};
ghost use Rattle.pgn_requests.specs.Settled.{cause_code, settled_tag, version_text};

use pgn_requests::{Cause, Settled};

/// The code of a refusal that is no syntax error.
pub fn code_of_cause(cause: Cause) -> &'static [u8]
    ensures value { result.now ≡ cause_code cause }
    ensures short { length result.now ≡ 5 }
{
    match cause {
        Cause::NoSetting => b"42704",
        Cause::BadValue => b"22023",
        Cause::Fixed => b"55P02",
        Cause::Unsupported => b"0A000",
        Cause::BadEncoding => b"22021",
        Cause::BadMessage => b"08P01",
    }
}

/// The tag that ends the answer to what is settled.
pub fn tag_of(settled: &Settled) -> &'static [u8]
    ensures value { result.now ≡ settled_tag settled.now }
    ensures short { length result.now ≤ 100 }
{
    match settled {
        Settled::Sets { .. } => b"SET",
        Settled::SetsBack { .. } => b"SET",
        Settled::Resets { .. } => b"RESET",
        Settled::ResetsAll => b"RESET",
        Settled::Shows { .. } => b"SHOW",
        Settled::Deallocates => b"DEALLOCATE ALL",
        Settled::Closes => b"CLOSE CURSOR ALL",
        Settled::One => b"SELECT 1",
        Settled::Version => b"SELECT 1",
        Settled::Process => b"SELECT 1",
    }
}

/// What the service calls itself.
pub fn service_version() -> &'static [u8]
    ensures value { result.now ≡ version_text }
    ensures short { length result.now ≤ 100 }
{
    b"PostgreSQL 15.0 (pgnotify)"
}

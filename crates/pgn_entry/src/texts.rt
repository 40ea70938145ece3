ghost use Rattle.std.specs.Prelude.{◌≡◌, ◌+◌, ◌↔◌, Contains, IsTrue, IfSome, count_by};
ghost use Rattle.std.specs.List.{before_first, after_first};
ghost use Rattle.pgn_base.specs.Texts.{IsName, IsPayload};
ghost use Rattle.pgn_entry.specs.Reading.{is_zero, IsAllZero};

use pgn_base::{NAME_BYTES_MAX, PAYLOAD_BYTES_MAX};
use pgn_lanes::first_zero;
use std::str;

/// What stands before the first zero byte, and what stands after it.
pub fn split_at_zero(bytes: &[u8]) -> Option<(&[u8], &[u8])>
    ensures none { (result ≡ None) ↔ (count_by is_zero bytes.now ≡ 0) }
    ensures count { IfSome result (λ parts. count_by is_zero bytes.now
        ≡ 1 + count_by is_zero parts.1.now) }
    ensures no_nul { IfSome result (λ parts. ¬ (Contains parts.0.now 0)) }
    ensures front { IfSome result (λ parts. parts.0.now ≡ before_first is_zero bytes.now) }
    ensures rest { IfSome result (λ parts. parts.1.now ≡ after_first is_zero bytes.now) }
{
    let end = first_zero(bytes)?;
    Some((&bytes[..end], &bytes[end + 1..]))
}

/// Whether bytes that have no zero byte are a name.
pub fn is_name(bytes: &[u8]) -> bool
    requires { ¬ (Contains bytes.now 0) }
    ensures { IsTrue result ↔ IsName bytes.now }
{
    !bytes.is_empty() && bytes.len() <= NAME_BYTES_MAX && str::from_utf8(bytes).is_ok()
}

/// Whether bytes that have no zero byte are a payload.
pub fn is_payload(bytes: &[u8]) -> bool
    requires { ¬ (Contains bytes.now 0) }
    ensures { IsTrue result ↔ IsPayload bytes.now }
{
    bytes.len() <= PAYLOAD_BYTES_MAX && str::from_utf8(bytes).is_ok()
}

/// Whether no byte is other than zero.
pub fn is_all_zero(bytes: &[u8]) -> bool
    ensures { IsTrue result ↔ IsAllZero bytes.now }
{
    bytes.iter().all(|byte| *byte == 0)
}

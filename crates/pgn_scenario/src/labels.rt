ghost use Rattle.std.specs.Prelude.{◌≡◌, ◌<◌, true, false, IfOk, MatchOption};
ghost use Rattle.std.specs.List.{list_all};
ghost use Rattle.std.specs.Char.{is_ascii_digit};
ghost use Rattle.std.specs.Str.Parse.{IsNumeral, digits_value};
ghost use Rattle.pgn_language.specs.Lines.{is_label, is_label_byte, is_database};

use pgn_base::{DbOid, NAME_BYTES_MAX, Name};
use std::alloc::{AllocError, Global};

/// Whether a part may be the name of a section or of a flag.
pub fn is_label(part: &str) -> bool
    ensures { result ≡ is_label part.now }
{
    !part.is_empty() && part.len() <= NAME_BYTES_MAX && are_label_bytes(part.as_bytes())
}

fn are_label_bytes(part: &[u8]) -> bool
    ensures { result ≡ list_all is_label_byte part.now }
{
    for byte in part {
        if !is_label_byte(*byte) {
            return false;
        }
    }
    true
}

fn is_label_byte(byte: u8) -> bool
    ensures { result ≡ is_label_byte byte }
{
    byte.is_ascii_alphanumeric() || byte == b'_' || byte == b'-'
}

/// The name of a label.
pub fn name_of(alloc: Global, label: &str) -> Result<Name, AllocError>
    requires { is_label label.now ≡ true }
    ensures { IfOk result (λ name. name ≡ label.now) }
{
    Name::of_valid(alloc, label)
}

/// The database whose number a part is.
pub fn database_of(part: &str) -> Option<DbOid>
    ensures { MatchOption result (is_database part.now ≡ false)
        (λ db. (is_database part.now ≡ true) × (db ≡ digits_value 10 part.now)) }
{
    if part.is_empty() || part.len() > 10 || !are_digits(part.as_bytes()) {
        return None;
    }
    match number_of(part) {
        Some(number) if number > 0 => Some(DbOid::new(number)),
        _ => None,
    }
}

fn are_digits(part: &[u8]) -> bool
    ensures { result ≡ list_all is_ascii_digit part.now }
{
    for byte in part {
        if !byte.is_ascii_digit() {
            return false;
        }
    }
    true
}

// The number of digits, where it has 32 bits.
fn number_of(digits: &str) -> Option<u32>
    requires { IsNumeral 10 digits.now }
    ensures { MatchOption result (4294967295 < digits_value 10 digits.now)
        (λ number. number ≡ digits_value 10 digits.now) }
{
    digits.parse::<u32>().ok()
}

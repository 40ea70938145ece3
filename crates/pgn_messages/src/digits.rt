ghost use Rattle.std.specs.Prelude.{◌≡◌, ◌+◌, ◌*◌, ◌/◌, ◌%◌, ◌^◌, ◌<◌, ◌≤◌, ◌++◌, codes, length, IfOk};
ghost use Rattle.pgn_messages.specs.Server.{eight_digits, fraction, without_zeros};

use crate::bytes::Bytes;
use pgn_base::Usage;
use std::alloc::{AllocError, Global};

/// How much of the queue is in use, as a fraction: at most 20 bytes.
pub fn fraction_bytes(alloc: Global, usage: &Usage) -> Result<Bytes, AllocError>
    ensures value { IfOk result (λ bytes. bytes ≡ fraction usage.now) }
    ensures short { IfOk result (λ bytes. length bytes ≤ 20) }
{
    let limit = u64::from(usage.limit);
    if usage.occupied == 0 {
        Bytes::of(alloc, b"0")
    } else if limit <= usage.occupied {
        Bytes::of(alloc, b"1")
    } else {
        part_of(alloc, usage.occupied, limit)
    }
}

// A part of a whole that is greater.
fn part_of(alloc: Global, part: u64, whole: u64) -> Result<Bytes, AllocError>
    requires less { part < whole }
    requires few { whole < 2 ^ 32 }
    ensures value { IfOk result (λ bytes. bytes ≡ codes "0." ++ without_zeros (eight_digits (part * 100000000 / whole))) }
    ensures short { IfOk result (λ bytes. length bytes ≤ 20) }
{
    let digits = eight_digits(part * 100_000_000 / whole);
    let mut bytes = Bytes::of(alloc, b"0.")?;
    bytes.put(without_zeros(&digits))?;
    Ok(bytes)
}

// Eight digits of a number, the most significant first.
fn eight_digits(n: u64) -> [u8; 8]
    ensures value { result ≡ eight_digits n }
    ensures long { length result ≡ 8 }
{
    [
        digit(n / 10_000_000),
        digit(n / 1_000_000),
        digit(n / 100_000),
        digit(n / 10_000),
        digit(n / 1_000),
        digit(n / 100),
        digit(n / 10),
        digit(n),
    ]
}

// The last digit of a number.
fn digit(n: u64) -> u8
    ensures { result ≡ 48 + n % 10 }
{
    b'0' + (n % 10) as u8
}

// Digits without the zeros at their end.
fn without_zeros(digits: &[u8]) -> &[u8]
    ensures value { result.now ≡ without_zeros digits.now }
    ensures short { length result.now ≤ length digits.now }
{
    let mut end = digits.len();
    while end > 0 && digits[end - 1] == b'0' {
        end -= 1;
    }
    &digits[..end]
}

ghost use Rattle.std.specs.Prelude.{◌≡◌, ◌+◌, ◌≤◌, length, map};
ghost use Rattle.std.specs.List.{position};
ghost use Rattle.std.specs.Simd.Lanes.{mask_l, chunk};
ghost use Rattle.pgn_lanes.specs.Zero.{is_zero, plain_zero, HasNoZeroBefore};

use std::simd::prelude::*;

// How many bytes are looked at together.
const LANES: usize = 16;

// A bit for each byte of the lanes from a place on, set where the byte is zero.
fn lane_zeros(bytes: &[u8], at: usize) -> u64
    requires { at + LANES ≤ length bytes.now }
    ensures { result ≡ mask_l (map is_zero (chunk at LANES bytes.now)) }
{
    u8x16::from_slice(&bytes[at..])
        .simd_eq(u8x16::splat(0))
        .to_bitmask()
}

// The first zero byte, byte by byte from a place on that it is not before.
fn zero_from(bytes: &[u8], from: usize) -> Option<usize>
    requires within { from ≤ length bytes.now }
    requires passed { HasNoZeroBefore from bytes.now }
    ensures { result ≡ plain_zero bytes.now }
{
    for at in from..bytes.len() {
        if bytes[at] == 0 {
            return Some(at);
        }
    }
    None
}

/// The least place of a zero byte, and none exactly where there is none.
pub fn first_zero(bytes: &[u8]) -> Option<usize>
    ensures plain { result ≡ plain_zero bytes.now }
    ensures first { result ≡ position is_zero bytes.now }
{
    let blocks = bytes.len() / LANES;
    for block in 0..blocks {
        let at = block * LANES;
        let zeros = lane_zeros(bytes, at);
        if zeros != 0 {
            return Some(at + zeros.trailing_zeros() as usize);
        }
    }
    zero_from(bytes, blocks * LANES)
}

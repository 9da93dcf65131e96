//! Where the bytes that print end.
ghost use Rattle.std.specs.Prelude.{◌≡◌, ◌≤◌, ◌+◌, length, drop};
ghost use Rattle.std.specs.List.{prefix_len};
ghost use Rattle.std.specs.Simd.Lanes.{chunk};
ghost use Rattle.qlanes.specs.Bytes.{is_printing};

use std::simd::prelude::*;

/// Whether the byte prints.
fn is_printing(byte: u8) -> bool
    ensures { result ≡ is_printing byte }
{
    (0x21..=0x7e).contains(&byte)
}

/// How many of 16 bytes stand before the first that does not print, or 16.
#[inline(always)]
fn run_at(bytes: &[u8], at: usize) -> usize
    requires { at + 16 ≤ length bytes.now }
    ensures run { result ≡ prefix_len is_printing (chunk at 16 bytes.now) }
    ensures few { result ≤ 16 }
{
    let above = u8x16::from_slice(&bytes[at..]) - u8x16::splat(0x21);
    let stops = above.simd_gt(u8x16::splat(0x5d)).to_bitmask();
    if stops == 0 {
        16
    } else {
        stops.trailing_zeros() as usize
    }
}

/// Where the bytes from a place on come to one that does not print, or to their end. O(bytes before it).
#[inline(always)]
pub fn printing_end(bytes: &[u8], start: usize) -> usize
    requires { start ≤ length bytes.now }
    ensures end { result ≡ start + prefix_len is_printing (drop start bytes.now) }
    ensures within { result ≤ length bytes.now }
{
    let mut at = start;
    while bytes.len() - at >= 16 {
        let run = run_at(bytes, at);
        at += run;
        if run < 16 {
            return at;
        }
    }
    while at < bytes.len() && is_printing(bytes[at]) {
        at += 1;
    }
    at
}

//! Whether bytes are the same.
ghost use Rattle.std.specs.Prelude.{◌≡◌, ◌≤◌, ◌+◌, length};
ghost use Rattle.std.specs.Bool.{Decides};
ghost use Rattle.std.specs.Simd.Lanes.{chunk};

use std::simd::prelude::*;

/// Whether 4 bytes at a place are the same in both.
#[inline(always)]
fn are_4_same(one: &[u8], other: &[u8], at: usize) -> bool
    requires one { at + 4 ≤ length one.now }
    requires other { at + 4 ≤ length other.now }
    ensures { Decides result (chunk at 4 one.now ≡ chunk at 4 other.now) }
{
    let (one, other) = (u8x4::from_slice(&one[at..]), u8x4::from_slice(&other[at..]));
    one.simd_eq(other).to_bitmask() == 0xf
}

/// Whether 8 bytes at a place are the same in both.
#[inline(always)]
fn are_8_same(one: &[u8], other: &[u8], at: usize) -> bool
    requires one { at + 8 ≤ length one.now }
    requires other { at + 8 ≤ length other.now }
    ensures { Decides result (chunk at 8 one.now ≡ chunk at 8 other.now) }
{
    let (one, other) = (u8x8::from_slice(&one[at..]), u8x8::from_slice(&other[at..]));
    one.simd_eq(other).to_bitmask() == 0xff
}

/// Whether both have the same bytes. Where they have 8 to 16, the first 8 are looked at at once, and then the last 8;
/// where they have 4 to 7, the first 4 and the last 4.
#[inline(always)]
pub fn are_same_bytes(one: &[u8], other: &[u8]) -> bool
    ensures { Decides result (one.now ≡ other.now) }
{
    let len = one.len();
    if len < 4 || len > 16 || other.len() != len {
        return one == other;
    }
    if len < 8 {
        return are_4_same(one, other, 0) && are_4_same(one, other, len - 4);
    }
    are_8_same(one, other, 0) && are_8_same(one, other, len - 8)
}

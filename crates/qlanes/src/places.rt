//! Where a byte stands first.
ghost use Rattle.std.specs.Prelude.{◌≡◌, ◌≤◌, ◌<◌, ◌+◌, ◌==◌, length};
ghost use Rattle.std.specs.List.{position_or_len};
ghost use Rattle.std.specs.Simd.Lanes.{chunk};

use std::simd::prelude::*;

/// How many of 16 bytes stand before the first that is this one, or 16.
#[inline(always)]
fn run_of_16(bytes: &[u8], at: usize, byte: u8) -> usize
    requires { at + 16 ≤ length bytes.now }
    ensures { result ≡ position_or_len (λ b. b == byte) (chunk at 16 bytes.now) }
{
    let hits = u8x16::from_slice(&bytes[at..])
        .simd_eq(u8x16::splat(byte))
        .to_bitmask();
    if hits == 0 {
        16
    } else {
        hits.trailing_zeros() as usize
    }
}

/// How many of 8 bytes stand before the first that is this one, or 8.
#[inline(always)]
fn run_of_8(bytes: &[u8], at: usize, byte: u8) -> usize
    requires { at + 8 ≤ length bytes.now }
    ensures { result ≡ position_or_len (λ b. b == byte) (chunk at 8 bytes.now) }
{
    let hits = u8x8::from_slice(&bytes[at..])
        .simd_eq(u8x8::splat(byte))
        .to_bitmask();
    if hits == 0 {
        8
    } else {
        hits.trailing_zeros() as usize
    }
}

/// Where a byte stands first among these, or their end, one after the other.
#[inline(always)]
fn first_of_few(bytes: &[u8], byte: u8) -> usize
    ensures { result ≡ position_or_len (λ b. b == byte) bytes.now }
{
    let mut at = 0;
    while at < bytes.len() && bytes[at] != byte {
        at += 1;
    }
    at
}

/// The same among 8 to 16: the first 8 are looked at, and then the last 8.
#[inline(always)]
fn first_of_some(bytes: &[u8], byte: u8) -> usize
    requires least { 8 ≤ length bytes.now }
    requires most { length bytes.now ≤ 16 }
    ensures { result ≡ position_or_len (λ b. b == byte) bytes.now }
{
    let run = run_of_8(bytes, 0, byte);
    if run < 8 {
        return run;
    }
    let last = bytes.len() - 8;
    last + run_of_8(bytes, last, byte)
}

/// The same among 16 and more: 16 after 16, and then the last 16.
#[inline(never)]
fn first_of_many(bytes: &[u8], byte: u8) -> usize
    requires { 16 ≤ length bytes.now }
    ensures { result ≡ position_or_len (λ b. b == byte) bytes.now }
{
    let mut at = 0;
    while bytes.len() - at >= 16 {
        let run = run_of_16(bytes, at, byte);
        if run < 16 {
            return at + run;
        }
        at += 16;
    }
    let last = bytes.len() - 16;
    last + run_of_16(bytes, last, byte)
}

/// Where a byte stands first among these, or their end. O(bytes before it).
#[inline(always)]
pub fn first_place(bytes: &[u8], byte: u8) -> usize
    ensures { result ≡ position_or_len (λ b. b == byte) bytes.now }
{
    if bytes.len() < 8 {
        first_of_few(bytes, byte)
    } else if bytes.len() <= 16 {
        first_of_some(bytes, byte)
    } else {
        first_of_many(bytes, byte)
    }
}

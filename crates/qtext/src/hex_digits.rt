//! Bytes written as hexadecimal digits, 16 at a time.
ghost use Rattle.std.specs.Prelude.{◌≡◌, ◌<◌, ◌≤◌, ◌+◌, ◌*◌, ◌/◌, ◌%◌, ◌^◌, ◌++◌, ℕ, length, map, take, slice_index};
ghost use Rattle.std.specs.Simd.Lanes.{Each1, chunk};
ghost use Rattle.hex.specs.Hex.{encode_lower, lower_digits};

use std::simd::prelude::*;

/// Each two bytes as one number, of which the first is the lower half.
fn pairs_of(bytes: u8x16) -> u16x8
    ensures pairs { (j : ℕ) → j < 8
        → slice_index result j ≡ slice_index bytes (2 * j) + 256 * slice_index bytes (2 * j + 1) }
    ensures len { length result ≡ 8 }
{
    u16x8::from_le_bytes(bytes)
}

/// The two bytes of each number.
fn bytes_of(pairs: u16x8) -> u8x16
    ensures parts { (j i : ℕ) → j < 8 → i < 2 → slice_index result (2 * j + i) ≡ slice_index pairs j / 256 ^ i % 256 }
    ensures len { length result ≡ 16 }
{
    pairs.to_le_bytes()
}

/// The upper half of each byte.
fn upper_halves(bytes: u8x16) -> u8x16
    ensures { result ≡ map (λ b. b / 16) bytes }
{
    lower_halves(bytes_of(pairs_of(bytes) >> u16x8::splat(4)))
}

/// The lower half of each byte.
fn lower_halves(bytes: u8x16) -> u8x16
    ensures { result ≡ map (λ b. b % 16) bytes }
{
    bytes & u8x16::splat(15)
}

/// The lower case digit of each number, which is below 16.
fn digits_of(values: u8x16) -> u8x16
    requires { Each1 (λ d. d < 16) values }
    ensures { result ≡ map (slice_index lower_digits) values }
{
    let is_decimal = values.simd_lt(u8x16::splat(10));
    values + is_decimal.select(u8x16::splat(48), u8x16::splat(87))
}

/// Puts the digits of 16 bytes, from a place on, into room for them.
fn encode_some(bytes: &[u8], at: usize, out: &mut [u8])
    requires { (at + 16 ≤ length bytes.now) × (2 * at + 32 ≤ length out.old) }
    ensures digits { take (2 * at + 32) out.new ≡ take (2 * at) out.old ++ encode_lower (chunk at 16 bytes.now) }
    ensures len { length out.new ≡ length out.old }
{
    let some = u8x16::from_slice(&bytes[at..]);
    let (first, last) = digits_of(upper_halves(some)).interleave(digits_of(lower_halves(some)));
    first.copy_to_slice(&mut out[2 * at..]);
    last.copy_to_slice(&mut out[2 * at + 16..]);
}

/// Puts the digits of bytes, two a byte and in lower case, into room for just these.
pub(crate) fn encode(bytes: &[u8], out: &mut [u8])
    requires { length out.old ≡ 2 * length bytes.now }
    ensures { out.new ≡ encode_lower bytes.now }
{
    let mut at = 0;
    while bytes.len() - at >= 16 {
        encode_some(bytes, at, out);
        at += 16;
    }
    hex::encode_to_slice(&bytes[at..], &mut out[2 * at..]).unwrap();
}

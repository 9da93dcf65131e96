//! Hexadecimal digits read as bytes, 16 at a time.
ghost use Rattle.std.specs.Prelude.{◌≡◌, ◌<◌, ◌≤◌, ◌+◌, ◌*◌, ◌++◌, false, length, map, take, true, Err, Ok};
ghost use Rattle.std.specs.Simd.Lanes.{Each1, chunk, zip2};
ghost use Rattle.hex.specs.Hex.{decode_of};
ghost use Rattle.qtext.specs.declared.text_fault.TextKind.TheVariants.{BadHex};
ghost use Rattle.qtext.specs.Data.{hex_or_fault};
ghost use Rattle.qtext.specs.Digits.{AreDigits, Decodes, bytes_in, digit_or};
ghost use Rattle.qtext.specs.Gives.{Gives};

use crate::{ReadFault, TextKind};
use qrules::Items;
use std::alloc::Global;
use std::simd::prelude::*;

/// What each digit stands for, in either case, and 255 for what is none.
fn values_of(digits: u8x16) -> u8x16
    ensures { result ≡ map digit_or digits }
{
    let is_upper = (digits - u8x16::splat(b'A')).simd_lt(u8x16::splat(6));
    let is_lower = (digits - u8x16::splat(b'a')).simd_lt(u8x16::splat(6));
    let is_decimal = (digits - u8x16::splat(b'0')).simd_lt(u8x16::splat(10));
    let decimals = is_decimal.select(digits - u8x16::splat(48), u8x16::splat(255));
    let lowers = is_lower.select(digits - u8x16::splat(87), decimals);
    is_upper.select(digits - u8x16::splat(55), lowers)
}

/// Whether all are below 16.
fn are_values(values: u8x16) -> bool
    ensures { result ≡ true → Each1 (λ d. d < 16) values }
{
    values.simd_gt(u8x16::splat(15)).to_bitmask() == 0
}

/// Bytes of their halves.
fn joined(uppers: u8x16, lowers: u8x16) -> u8x16
    requires uppers { Each1 (λ d. d < 16) uppers }
    requires lowers { Each1 (λ d. d < 16) lowers }
    ensures bytes { result ≡ zip2 (λ u l. u * 16 + l) uppers lowers }
    ensures len { length result ≡ 16 }
{
    uppers * u8x16::splat(16) + lowers
}

/// Puts the bytes of 32 digits, from a place on, into room for them, unless one is no digit.
fn decode_some(word: &[u8], at: usize, out: &mut [u8]) -> bool
    requires { (2 * at + 32 ≤ length word.now) × (at + 16 ≤ length out.old) }
    ensures digits { result ≡ true → AreDigits (chunk (2 * at) 32 word.now) }
    ensures bytes { result ≡ true → take (at + 16) out.new ≡ take at out.old ++ bytes_in (chunk (2 * at) 32 word.now) }
    ensures kept { result ≡ false → out.new ≡ out.old }
    ensures len { length out.new ≡ length out.old }
{
    let first = u8x16::from_slice(&word[2 * at..]);
    let last = u8x16::from_slice(&word[2 * at + 16..]);
    let (uppers, lowers) = first.deinterleave(last);
    let (uppers, lowers) = (values_of(uppers), values_of(lowers));
    if !are_values(uppers) || !are_values(lowers) {
        return false;
    }
    joined(uppers, lowers).copy_to_slice(&mut out[at..]);
    true
}

/// Puts the bytes of digits into room for them, as long as 32 digits are there and all are digits. It tells how many.
fn decode_whole(word: &[u8], out: &mut [u8]) -> usize
    requires { length word.now ≡ 2 * length out.old }
    ensures within { result ≤ length out.old }
    ensures len { length out.new ≡ length out.old }
    ensures bytes { Decodes word.now (take result out.new) result }
{
    let mut at = 0;
    while word.len() - 2 * at >= 32 {
        if !decode_some(word, at, out) {
            return at;
        }
        at += 16;
    }
    at
}

/// Puts the bytes of digits into room for just these. It tells whether all are digits.
fn decode_into(word: &[u8], out: &mut [u8]) -> bool
    requires { length word.now ≡ 2 * length out.old }
    ensures bytes { result ≡ true → hex_or_fault (decode_of word.now) ≡ Ok out.new }
    ensures fault { result ≡ false → hex_or_fault (decode_of word.now) ≡ Err BadHex }
    ensures len { length out.new ≡ length out.old }
{
    let at = decode_whole(word, out);
    let (_, rest) = word.split_at(2 * at);
    let (_, room) = out.split_at_mut(at);
    hex::decode_to_slice(rest, room).is_ok()
}

/// The bytes of hexadecimal digits, two a byte, in either case. An Err is BadHex, or that there is no memory.
pub(crate) fn decode(alloc: Global, word: &[u8]) -> Result<Items<u8>, ReadFault>
    ensures { Gives result (hex_or_fault (decode_of word.now)) }
{
    if word.len() % 2 != 0 {
        return Err(ReadFault::Fault(TextKind::BadHex));
    }
    let mut bytes = vec![in alloc; 0u8; word.len() / 2]?;
    if !decode_into(word, &mut bytes) {
        return Err(ReadFault::Fault(TextKind::BadHex));
    }
    Ok(Items::new(bytes))
}

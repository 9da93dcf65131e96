//! Hexadecimal digits in lower case, looked for 16 at a time.
ghost use Rattle.std.specs.Prelude.{◌≡◌, ◌≤◌, ◌+◌, length, Ok, IfOk};
ghost use Rattle.std.specs.List.{list_all};
ghost use Rattle.std.specs.Simd.Lanes.{chunk};
ghost use Rattle.hex.specs.Hex.{decode_of};
ghost use Rattle.qtext_image.specs.RowsRead.{lower_data_of};
ghost use Rattle.qtext_image_read.specs.Digits.{GivesDigits, are_pairs, bytes_of, is_lower_digit};

use qtext::{ReadFault, TextKind};
use std::simd::prelude::*;

/// Whether 16 bytes, from a place on, are all digits.
fn are_digits_at(text: &[u8], at: usize) -> bool
    requires { at + 16 ≤ length text.now }
    ensures { result ≡ list_all is_lower_digit (chunk at 16 text.now) }
{
    let bytes = u8x16::from_slice(&text[at..]);
    let is_letter = (bytes - u8x16::splat(b'a')).simd_lt(u8x16::splat(6));
    // A letter stands for 0, as the first of the other digits does.
    let place = is_letter.select(u8x16::splat(0), bytes - u8x16::splat(b'0'));
    place.simd_gt(u8x16::splat(9)).to_bitmask() == 0
}

/// Whether a byte is a digit.
fn is_digit(byte: u8) -> bool
    ensures { result ≡ is_lower_digit byte }
{
    (b'0' <= byte && byte <= b'9') || (b'a' <= byte && byte <= b'f')
}

/// Whether a few bytes are all digits.
fn are_digits_in(few: &[u8]) -> bool
    ensures { result ≡ list_all is_lower_digit few.now }
{
    few.iter().all(|byte| is_digit(*byte))
}

/// Whether the bytes of a word are all digits.
fn are_digits(word: &[u8]) -> bool
    ensures { result ≡ list_all is_lower_digit word.now }
{
    let mut at = 0;
    while word.len() - at >= 16 {
        if !are_digits_at(word, at) {
            return false;
        }
        at += 16;
    }
    are_digits_in(word.split_at(at).1)
}

/// Whether they are the digits of one byte or more, two a byte.
fn are_pairs(word: &[u8]) -> bool
    ensures { result ≡ are_pairs word.now }
{
    !word.is_empty() && word.len() % 2 == 0 && are_digits(word)
}

/// The digits of data, two a byte: none for a dash.
pub(crate) fn digits_of(word: &[u8]) -> Result<&[u8], ReadFault>
    ensures gives { GivesDigits result (lower_data_of word.now) }
    ensures digits { IfOk result (λ digits. decode_of digits.now ≡ Ok (bytes_of digits.now)) }
{
    if word == b"-".as_slice() {
        return Ok(&[]);
    }
    if are_pairs(word) {
        return Ok(word);
    }
    Err(ReadFault::Fault(TextKind::BadHex))
}

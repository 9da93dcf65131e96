//! Letters in upper case, looked for 16 at a time.
ghost use Rattle.std.specs.Prelude.{◌≡◌, ◌≤◌, ◌+◌, length};
ghost use Rattle.std.specs.Char.{is_ascii_uppercase};
ghost use Rattle.std.specs.List.{list_any};
ghost use Rattle.std.specs.Simd.Lanes.{chunk};

use std::simd::prelude::*;

/// Whether one of 16 bytes, from a place on, is a letter in upper case.
fn has_upper_at(text: &[u8], at: usize) -> bool
    requires { at + 16 ≤ length text.now }
    ensures { result ≡ list_any is_ascii_uppercase (chunk at 16 text.now) }
{
    let from_a = u8x16::from_slice(&text[at..]) - u8x16::splat(b'A');
    from_a.simd_lt(u8x16::splat(26)).to_bitmask() != 0
}

/// Whether one of a few bytes is such a letter.
fn has_upper_in(few: &[u8]) -> bool
    ensures { result ≡ list_any is_ascii_uppercase few.now }
{
    few.iter().any(|letter| letter.is_ascii_uppercase())
}

/// Whether a letter of the word is in upper case.
pub(crate) fn has_upper_case(digits: &[u8]) -> bool
    ensures { result ≡ list_any is_ascii_uppercase digits.now }
{
    let mut at = 0;
    while digits.len() - at >= 16 {
        if has_upper_at(digits, at) {
            return true;
        }
        at += 16;
    }
    has_upper_in(digits.split_at(at).1)
}

//! Numbers as words.
ghost use Rattle.std.specs.Char.{is_ascii_digit};
ghost use Rattle.std.specs.List.{list_all};
ghost use Rattle.std.specs.Prelude.{◌≡◌, ◌≤◌, ◌^◌, Some, IfSome, MatchOption, false, length};
ghost use Rattle.std.specs.Str.Parse.{digits_value};
ghost use Rattle.qtext.specs.Gives.{Gives};
ghost use Rattle.qtext.specs.Words.{AreDigits, numeral, number_of, number, id_of};
ghost use Rattle.qtext.specs.declared.numbers.TheConstants.{SHORT};

use crate::{ReadFault, TextKind};

/// So many decimal digits are a number of 64 bits, whichever they are.
const SHORT: usize = 19;

/// The value of few decimal digits, whose sums all fit.
fn short_value(digits: &[u8]) -> Option<u64>
    requires { length digits.now ≤ SHORT }
    ensures { MatchOption result (list_all is_ascii_digit digits.now ≡ false)
        (λ n. AreDigits digits.now × (n ≡ digits_value 10 digits.now)) }
{
    let mut value = 0u64;
    for digit in digits {
        if !digit.is_ascii_digit() {
            return None;
        }
        value = value * 10 + u64::from(*digit - b'0');
    }
    Some(value)
}

/// The value of decimal digits, where it fits.
fn long_value(digits: &[u8]) -> Option<u64>
    ensures { MatchOption result (AreDigits digits.now → 2 ^ 64 ≤ digits_value 10 digits.now)
        (λ n. AreDigits digits.now × (n ≡ digits_value 10 digits.now)) }
{
    let mut value = 0u64;
    for digit in digits {
        if !digit.is_ascii_digit() {
            return None;
        }
        value = value
            .checked_mul(10)?
            .checked_add(u64::from(*digit - b'0'))?;
    }
    Some(value)
}

/// The number that a numeral spells, where it fits.
fn numeral(word: &[u8]) -> Option<u64>
    ensures { MatchOption result (IfSome (numeral word.now) (λ n. 2 ^ 64 ≤ n)) (λ n. numeral word.now ≡ Some n) }
{
    if word.is_empty() {
        return None;
    }
    if word[0] == b'0' {
        return if word.len() == 1 { Some(0) } else { None };
    }
    if word.len() <= SHORT {
        return short_value(word);
    }
    long_value(word)
}

/// A number of at most `most`, or the fault.
pub fn number_of(fault: TextKind, most: u64, word: &[u8]) -> Result<u64, ReadFault>
    ensures { Gives result (number_of fault most word.now) }
{
    match numeral(word) {
        Some(n) if n <= most => Ok(n),
        _ => Err(ReadFault::Fault(fault)),
    }
}

/// A number, or the fault of a bad one.
pub fn number(word: &[u8]) -> Result<u64, ReadFault>
    ensures { Gives result (number word.now) }
{
    number_of(TextKind::BadNumber, u64::MAX, word)
}

/// The id of a user, a group or a project, or the fault.
pub fn id_of(fault: TextKind, word: &[u8]) -> Result<u32, ReadFault>
    ensures { Gives result (id_of fault word.now) }
{
    match numeral(word) {
        Some(n) if n <= u32::MAX as u64 => Ok(n as u32),
        _ => Err(ReadFault::Fault(fault)),
    }
}

//! Sizes with a unit.

ghost use Rattle.std.specs.Prelude.{◌≡◌, ◌<◌, ◌≤◌, ◌^◌, IfSome, length};
ghost use Rattle.std.specs.List.{prefix_len};
ghost use Rattle.std.specs.Char.{is_ascii_digit};
ghost use Rattle.std.specs.Str.Parse.{AllDigits, digits_value};
ghost use Rattle.qtext_config.specs.ConfigSize.{blocks_of_size, is_number_of_size, unit_of};

use qrules::KIB_PER_BLOCK;

/// The bytes of a block.
const BLOCK_BYTES: u64 = KIB_PER_BLOCK * 1024;

/// The blocks that a size asks for, rounded up, or None where it is of another form.
///
/// A size is 1 to 10 digits, the first not 0, and then nothing, `k`, `m` or `g`, for 2^10, 2^20 or 2^30 bytes.
pub fn blocks_of_size(text: &[u8]) -> Option<u64>
    ensures { result ≡ blocks_of_size text.now }
{
    let (digits, letter) = text.split_at(digit_count(text));
    if !is_number_of_size(digits) {
        return None;
    }
    let unit = unit_of(letter)?;
    Some((number_of(digits) * unit).div_ceil(BLOCK_BYTES))
}

/// How many digits the text begins with.
fn digit_count(text: &[u8]) -> usize
    ensures { result ≡ prefix_len is_ascii_digit text.now }
{
    text.iter().take_while(|byte| byte.is_ascii_digit()).count()
}

fn is_number_of_size(digits: &[u8]) -> bool
    ensures { result ≡ is_number_of_size digits.now }
{
    match digits {
        [] => false,
        [first, others @ ..] => *first != b'0' && others.len() <= 9,
    }
}

fn unit_of(letter: &[u8]) -> Option<u64>
    ensures unit { result ≡ unit_of letter.now }
    ensures range { IfSome result (λ unit. unit ≤ 2 ^ 30) }
{
    match letter {
        [] => Some(1),
        [b'k'] => Some(1 << 10),
        [b'm'] => Some(1 << 20),
        [b'g'] => Some(1 << 30),
        _ => None,
    }
}

fn number_of(digits: &[u8]) -> u64
    requires digits { AllDigits 10 digits.now }
    requires few { length digits.now ≤ 10 }
    ensures value { result ≡ digits_value 10 digits.now }
    ensures small { result < 10 ^ 10 }
{
    let mut number = 0;
    for digit in digits {
        number = number * 10 + u64::from(*digit - b'0');
    }
    number
}

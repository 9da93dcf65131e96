//! Amounts in larger units.
ghost use Rattle.std.specs.Prelude.{◌≡◌, ◌<◌, ◌≤◌, ◌^◌, decimal, length};
ghost use Rattle.qtext_outcome.specs.Units.{count_text, space_text, units_in};

use qtext::TextLine;

/// How many units of this size an amount has, rounded up, which has at least 100 of them.
fn units_in(size: u64, amount: u128) -> u64
    requires some { 0 < size }
    requires fits { units_in size amount < 2 ^ 64 }
    ensures { result ≡ units_in size amount }
{
    ((amount + size as u128 - 1) / size as u128) as u64
}

/// A unit: how much it is, and its letter.
type Unit = (u64, u8);

/// KiB in the greatest unit of which there are at least 100, rounded up (repquota(8)).
pub(crate) fn space(kib: u128) -> TextLine
    requires { kib < 2 ^ 66 }
    ensures { result ≡ space_text kib }
{
    let (size, letter) = match kib {
        107_374_182_400.. => (1_073_741_824, b'T'),
        104_857_600.. => (1_048_576, b'G'),
        102_400.. => (1024, b'M'),
        _ => (1, b'K'),
    };
    let mut text = TextLine::new();
    text.number(units_in(size, kib));
    text.byte(letter);
    text
}

/// A number in the greatest unit of which there are at least 100, rounded up (repquota(8)).
pub(crate) fn count(n: u64) -> TextLine
    ensures { result ≡ count_text n }
{
    let (size, letter) = match n {
        100_000_000_000_000.. => (1_000_000_000_000, b't'),
        100_000_000_000.. => (1_000_000_000, b'g'),
        100_000_000.. => (1_000_000, b'm'),
        100_000.. => (1000, b'k'),
        _ => return plain(n),
    };
    let mut text = plain(units_in(size, n as u128));
    text.byte(letter);
    text
}

/// A number as it is.
fn plain(n: u64) -> TextLine
    ensures text { result ≡ decimal n }
    ensures short { length result ≤ 20 }
{
    let mut text = TextLine::new();
    text.number(n);
    text
}

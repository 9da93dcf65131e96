//! Numbers, which may have a unit behind them.
ghost use Rattle.std.specs.Prelude.{◌≡◌, IfOk};
ghost use Rattle.qtext.specs.Words.{number};
ghost use Rattle.qtext.specs.Pieces.{piece_text};
ghost use Rattle.qtext_expand.specs.Values.{factor, measured_text, scaled, size_factor, span_factor, value_read, value};
ghost use Rattle.qtext_expand.specs.Values.{with_unit};

use qtext::{Piece, ReadFault, number};
use std::alloc::AllocError;

/// What a number counts that has a letter behind it.
#[derive(Clone, Copy, Debug)]
pub(crate) enum Measure {
    Bytes,
    Kibibytes,
    Seconds,
}

#[tactic(auto, unfolding(crate::specs::Values::size_factor))]
fn size_factor(letter: u8) -> Option<u64>
    ensures { result ≡ size_factor letter }
{
    if letter == b'k' || letter == b'K' {
        return Some(1 << 10);
    }
    if letter == b'm' || letter == b'M' {
        return Some(1 << 20);
    }
    if letter == b'g' || letter == b'G' {
        return Some(1 << 30);
    }
    if letter == b't' || letter == b'T' {
        return Some(1 << 40);
    }
    None
}

#[tactic(auto, unfolding(crate::specs::Values::span_factor))]
fn span_factor(letter: u8) -> Option<u64>
    ensures { result ≡ span_factor letter }
{
    if letter == b's' {
        return Some(1);
    }
    if letter == b'm' {
        return Some(60);
    }
    if letter == b'h' {
        return Some(3600);
    }
    if letter == b'd' {
        return Some(86_400);
    }
    if letter == b'w' {
        return Some(604_800);
    }
    None
}

#[tactic(auto, unfolding(crate::specs::Values::factor))]
fn factor(measure: Measure, letter: u8) -> Option<u64>
    ensures { result ≡ factor measure letter }
{
    match measure {
        Measure::Bytes => size_factor(letter),
        Measure::Kibibytes => match size_factor(letter) {
            Some(bytes) => Some(bytes / 1024),
            None => None,
        },
        Measure::Seconds => span_factor(letter),
    }
}

/// The number that a word spells, if it does.
fn value_read(word: &[u8]) -> Result<Option<u64>, AllocError>
    ensures { IfOk result (λ n. n ≡ value_read (number word.now)) }
{
    match number(word) {
        Ok(n) => Ok(Some(n)),
        Err(ReadFault::Fault(_)) => Ok(None),
        Err(ReadFault::Memory) => Err(AllocError),
    }
}

fn scaled(n: Option<u64>, unit: Option<u64>) -> Option<u64>
    ensures { result ≡ scaled n unit }
{
    match (n, unit) {
        (Some(n), Some(unit)) => n.checked_mul(unit),
        _ => None,
    }
}

fn with_unit(measure: Measure, word: &[u8]) -> Result<Option<u64>, AllocError>
    ensures { IfOk result (λ n. n ≡ with_unit measure word.now) }
{
    if word.is_empty() {
        return Ok(None);
    }
    let last = word.len() - 1;
    let n = value_read(word.split_at(last).0)?;
    Ok(scaled(n, factor(measure, word[last])))
}

/// What a number comes to, with a letter behind it or none. It is none where the word is no such number, or past 64
/// bits. An Err is out of memory.
#[tactic(auto, unfolding(crate::specs::Values::value))]
pub(crate) fn value(measure: Measure, word: &[u8]) -> Result<Option<u64>, AllocError>
    ensures { IfOk result (λ n. n ≡ value measure word.now) }
{
    match value_read(word)? {
        Some(n) => Ok(Some(n)),
        None => with_unit(measure, word),
    }
}

/// A number with its unit worked out; any other word stays.
pub(crate) fn measured(measure: Measure, word: &[u8]) -> Result<Piece<'_>, AllocError>
    ensures { IfOk result (λ p. piece_text p ≡ measured_text measure word.now) }
{
    match value(measure, word)? {
        Some(n) => Ok(Piece::Number(n)),
        None => Ok(Piece::Text(word)),
    }
}

//! Which word of a line is at fault, and where it stands.
ghost use Rattle.std.specs.Prelude.{◌≡◌, ◌≤◌, ◌<◌, ◌+◌, ◌^◌, false, true, length, map, IfOk};
ghost use Rattle.qtext.specs.Words.{is_text_byte, words};
ghost use Rattle.qtext_check.specs.Places.{call_before, caller_before, is_of_line, is_of_word, start_of, words_before};

use crate::fault::{Finding, Wrong};
use qtext::{ReadFault, TextKind, first_part, number};
use qtext_read::{caller_of, row_of, takes, values_before, verb_of, was_read};
use std::alloc::{AllocError, Global};

/// How many words of a call stand before the first that is none.
fn call_before(alloc: Global, call: &[&[u8]]) -> Result<usize, AllocError>
    ensures before { IfOk result (λ before. before ≡ call_before (map (λ word. word.now) call.now)) }
    ensures within { IfOk result (λ before. before ≤ length call.now) }
{
    let [verb, arguments @ ..] = call else {
        return Ok(0);
    };
    match verb_of(verb) {
        Ok(verb) if takes(verb, arguments.len()) => {
            Ok(1 + values_before(alloc, row_of(verb), arguments)?)
        }
        Ok(_) | Err(ReadFault::Fault(_)) => Ok(0),
        Err(ReadFault::Memory) => Err(AllocError),
    }
}

/// How many words behind a moment stand before the first that is none.
fn caller_before(alloc: Global, behind: &[&[u8]]) -> Result<usize, AllocError>
    ensures before { IfOk result (λ before. before ≡ caller_before (map (λ word. word.now) behind.now)) }
    ensures within { IfOk result (λ before. before ≤ length behind.now) }
{
    let [caller, call @ ..] = behind else {
        return Ok(0);
    };
    if was_read(caller_of(alloc, caller))? {
        Ok(1 + call_before(alloc, call)?)
    } else {
        Ok(0)
    }
}

/// How many words of a line stand before the first that is none.
fn words_before(alloc: Global, words: &[&[u8]]) -> Result<usize, AllocError>
    ensures { IfOk result (λ before. before ≡ words_before (map (λ word. word.now) words.now)) }
{
    let [moment, behind @ ..] = words else {
        return Ok(0);
    };
    if was_read(number(moment))? {
        Ok(1 + caller_before(alloc, behind)?)
    } else {
        Ok(0)
    }
}

/// Which of the words of a line is at fault, from 0, that is none for this.
pub(crate) fn word_at_fault(
    alloc: Global,
    kind: TextKind,
    words: &[&[u8]],
) -> Result<usize, AllocError>
    ensures { IfOk result (λ word. is_of_line kind ≡ false → word ≡ words_before (map (λ word. word.now) words.now)) }
{
    match kind {
        TextKind::Cut | TextKind::BadByte | TextKind::TooMany => Ok(0),
        _ => words_before(alloc, words),
    }
}

/// The word of a line of that number, from 0, and no byte where there is none.
pub(crate) fn word_of(bytes: &[u8], number: usize) -> &[u8] {
    let mut rest = bytes;
    for _ in 0..number {
        match first_part(rest, b' ').1 {
            Some(after) => rest = after,
            None => return &[],
        }
    }
    first_part(rest, b' ').0
}

/// How many bytes stand before the word of that number, from 0; where there is none, all of them and a space.
#[tactic(auto, using(crate::proofs::Placed::first_length), unfolding(crate::specs::Places::start_of))]
fn start_of(bytes: &[u8], number: usize) -> usize
    ensures start { length bytes.now + 1 < 2 ^ 64 → result ≡ start_of number (words bytes.now) }
    ensures within { result ≤ length bytes.now + 1 }
{
    if number == 0 {
        return 0;
    }
    match first_part(bytes, b' ') {
        (_, Some(after)) => {
            let front = bytes.len() - after.len();
            front.saturating_add(start_of(after, number - 1))
        }
        (_, None) => bytes.len().saturating_add(1),
    }
}

/// Whether a byte is a space or one that prints.
pub(crate) fn is_text(byte: u8) -> bool
    ensures { result ≡ is_text_byte byte }
{
    (0x20..=0x7e).contains(&byte)
}

/// How many bytes of the line stand before what is at fault.
pub(crate) fn bytes_before(finding: &Finding<'_>) -> usize
    ensures word { is_of_word finding.now.fault.wrong ≡ true → length finding.now.bytes.now + 1 < 2 ^ 64
        → result ≡ start_of finding.now.word (words finding.now.bytes.now) }
    ensures within { result ≤ length finding.now.bytes.now + 1 }
{
    let bytes = finding.bytes;
    match finding.fault.wrong {
        Wrong::Text(TextKind::Cut) => bytes.len(),
        Wrong::Text(TextKind::BadByte) => match bytes.iter().position(|byte| !is_text(*byte)) {
            Some(at) => at,
            None => bytes.len(),
        },
        _ => start_of(bytes, finding.word),
    }
}

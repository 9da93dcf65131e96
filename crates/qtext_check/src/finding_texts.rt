//! How a fault is told.
ghost use Rattle.std.specs.Prelude.{◌≡◌, ◌<◌, ◌+◌, ◌^◌, length, true, IfOk};
ghost use Rattle.qtext.specs.Words.{words};
ghost use Rattle.qtext_check.specs.Places.{is_of_word, start_of};
ghost use Rattle.qtext_check.specs.Told.{IsPlacedAt, IsToldAt, fault_place_text};

use crate::allowed::{near_words, put_allowed};
use crate::fault::{Finding, Wrong};
use crate::place::{bytes_before, word_of};
use crate::shown::{put_pointed, put_word};
use qplain::Refusal;
use qtext::{Piece, TextKind, Written, put, put_pieces};
use std::alloc::{AllocError, Global};
use std::io::Write;

/// Writes what is wrong.
fn put_wrong<W: Write>(out: &mut W, wrong: Wrong) -> Written {
    match wrong {
        Wrong::Text(kind) => put(out, kind.words().as_bytes()),
        Wrong::Refused(Refusal::ENAMETOOLONG) => put(out, b"refused ENAMETOOLONG"),
        Wrong::Refused(_) => put(out, b"refused EINVAL"),
    }
}

/// The word that is shown of a fault, and none where the fault is of the line.
fn shown_word<'a>(finding: &Finding<'a>) -> &'a [u8] {
    match finding.fault.wrong {
        Wrong::Text(TextKind::Cut | TextKind::BadByte | TextKind::TooMany) => &[],
        _ => word_of(finding.bytes, finding.word),
    }
}

/// Writes the word at fault, or the byte.
fn put_at_fault<W: Write>(out: &mut W, finding: &Finding<'_>, word: &[u8]) -> Written {
    if finding.fault.wrong == Wrong::Text(TextKind::BadByte) {
        return match finding.bytes.get(bytes_before(finding)) {
            Some(byte) => put_pieces(out, &[Piece::Text(b": 0x"), Piece::Byte(*byte)]),
            None => Ok(()),
        };
    }
    if word.is_empty() {
        return Ok(());
    }
    put(out, b": ")?;
    put_word(out, word)
}

fn put_near<W: Write>(out: &mut W, near: Option<&[u8]>) -> Written {
    match near {
        Some(near) => put_pieces(
            out,
            &[Piece::Text(b"; "), Piece::Text(near), Piece::Text(b"?")],
        ),
        None => Ok(()),
    }
}

/// Writes what is wrong, the word, what is allowed in its place, and a word near to it.
fn put_reason<W: Write>(out: &mut W, finding: &Finding<'_>) -> Written {
    let wrong = finding.fault.wrong;
    let verb = word_of(finding.bytes, 2);
    let word = shown_word(finding);
    put_wrong(out, wrong)?;
    put_at_fault(out, finding, word)?;
    put(out, b"; wanted: ")?;
    put_allowed(out, wrong, verb, finding.word)?;
    put_near(out, near_words(wrong, verb, finding.word, word))
}

fn reason_text(alloc: Global, finding: &Finding<'_>) -> Result<Vec<u8>, AllocError> {
    let mut text = Vec::new(alloc);
    match put_reason(&mut text, finding) {
        Ok(()) => Ok(text),
        Err(_) => Err(AllocError),
    }
}

/// Writes a reason, and below it a line and a caret behind so many bytes of it.
fn put_told<W: Write>(out: &mut W, bytes: &[u8], before: usize, reason: &[u8]) -> Written {
    put(out, reason)?;
    put(out, b"\n")?;
    put_pointed(out, bytes, before)
}

fn told_text(
    alloc: Global,
    bytes: &[u8],
    before: usize,
    reason: &[u8],
) -> Result<Vec<u8>, AllocError> {
    let mut text = Vec::new(alloc);
    match put_told(&mut text, bytes, before, reason) {
        Ok(()) => Ok(text),
        Err(_) => Err(AllocError),
    }
}

/// `:LINE:COLUMN: `
fn fault_place_text(alloc: Global, line: u64, column: u64) -> Result<Vec<u8>, AllocError>
    ensures { IfOk result (λ text. text.items ≡ fault_place_text line column) }
{
    let mut text = Vec::new(alloc);
    let pieces = [
        Piece::Text(b":"),
        Piece::Number(line),
        Piece::Text(b":"),
        Piece::Number(column),
        Piece::Text(b": "),
    ];
    match put_pieces(&mut text, &pieces) {
        Ok(()) => Ok(text),
        Err(_) => Err(AllocError),
    }
}

/// A fault as text, behind the name of its file: `:LINE:COLUMN: REASON`, and below it the line of that number, whose
/// bytes these are, and a caret behind so many of them. Columns count bytes from 1.
pub fn fault_text(
    alloc: Global,
    line: u64,
    bytes: &[u8],
    before: usize,
    reason: &[u8],
) -> Result<Vec<u8>, AllocError>
    ensures line { IfOk result (λ text. IsToldAt line text.items) }
    ensures column { before + 1 < 2 ^ 64 → IfOk result (λ text. IsPlacedAt line (before + 1) text.items) }
{
    let mut text = fault_place_text(alloc, line, (before as u64).saturating_add(1))?;
    text.extend_from_slice(&told_text(alloc, bytes, before, reason)?)?;
    Ok(text)
}

/// A fault of a script as text, behind the name of its file, with the reason `WRONG: WORD; wanted: WHAT`, and `; NEAR?`
/// where a word is near, and the caret under the word.
pub fn finding_text(alloc: Global, finding: &Finding<'_>) -> Result<Vec<u8>, AllocError>
    ensures line { IfOk result (λ text. IsToldAt finding.now.fault.line text.items) }

    // The column of a word is that of its first byte.
    ensures column { is_of_word finding.now.fault.wrong ≡ true → length finding.now.bytes.now + 2 < 2 ^ 64
        → IfOk result (λ text. IsPlacedAt finding.now.fault.line
        (start_of finding.now.word (words finding.now.bytes.now) + 1) text.items) }
{
    let before = bytes_before(finding);
    let reason = reason_text(alloc, finding)?;
    fault_text(alloc, finding.fault.line, finding.bytes, before, &reason)
}

//! Whether a line that is named is really the first at fault.
ghost use Rattle.std.specs.Prelude.{◌≤◌, length};

use crate::answer::Answer;
use qtext::{TextFault, TextKind};
use qtext_files::FromText;
use std::alloc::{AllocError, Global};

/// How many bytes the first lines of a text have with their line ends, or the text where it has not so many.
fn length_of(text: &[u8], lines: u64) -> usize
    ensures { result ≤ length text.now }
{
    let mut left = lines;
    for at in 0..text.len() {
        if left == 0 {
            return at;
        }
        if text[at] == b'\n' {
            left -= 1;
        }
    }
    text.len()
}

/// The first lines of a text, and what follows them.
fn lines_of(text: &[u8], lines: u64) -> (&[u8], &[u8]) {
    text.split_at(length_of(text, lines))
}

/// Whether nothing is there, or it is read.
fn is_sound<T: FromText + Drop>(alloc: Global, text: &[u8]) -> bool {
    text.is_empty() || T::read(alloc, text).is_ok()
}

/// Whether a text is refused for just this.
fn is_refused<T: FromText + Drop>(alloc: Global, text: &[u8], fault: TextFault) -> bool {
    match T::read(alloc, text) {
        Ok(_) => false,
        Err(again) => again == fault,
    }
}

/// Whether a line is at fault for this also where it stands alone, behind the head, which is the first line, or none.
fn is_alone<T: FromText + Drop>(
    alloc: Global,
    head: &[u8],
    line: &[u8],
    fault: TextFault,
) -> Result<bool, AllocError> {
    if fault.kind == TextKind::TooMany {
        return Ok(true);
    }
    let mut text = Vec::from_slice(alloc, head)?;
    text.extend_from_slice(line)?;
    let line = if head.is_empty() { 1 } else { 2 };
    let kind = fault.kind;
    Ok(is_refused::<T>(alloc, &text, TextFault { line, kind }))
}

/// Whether the line that is named is really the first at fault: the lines before it are read, the lines up to and with
/// it are refused for the same, and so is it alone. So many lines are a head.
fn is_first<T: FromText + Drop>(
    alloc: Global,
    text: &[u8],
    heads: u64,
    fault: TextFault,
) -> Result<bool, AllocError> {
    let (before, behind) = lines_of(text, fault.line.saturating_sub(1));
    let (with, _) = lines_of(text, fault.line);
    let (line, _) = lines_of(behind, 1);
    let (head, _) = lines_of(before, heads);
    Ok(
        is_sound::<T>(alloc, before)
            && is_refused::<T>(alloc, with, fault)
            && is_alone::<T>(alloc, head, line, fault)?,
    )
}

/// What a text comes to that is refused for this, and of which so many lines are a head.
pub(crate) fn answer_of_fault<T: FromText + Drop>(
    alloc: Global,
    text: &[u8],
    heads: u64,
    fault: TextFault,
) -> Result<Answer, AllocError> {
    if (fault.line == 0) != (fault.kind == TextKind::Memory) {
        return Ok(Answer::Misnamed(fault));
    }
    if fault.line == 0 || is_first::<T>(alloc, text, heads, fault)? {
        return Ok(Answer::Refused(fault));
    }
    Ok(Answer::Misnamed(fault))
}

//! Scripts: read, and spelled again as journals spell calls.

use crate::answer::Answer;
use crate::faults::answer_of_fault;
use crate::spellings::one_spelling;
use qplain::{Line, Script};
use qtext::{TextLine, Written};
use qtext_files::FromText;
use qtext_write::{put_call, put_caller};
use std::alloc::Global;
use std::io::{self, Write};

/// Writes `MOMENT CALLER CALL` as journals spell it.
fn put_line<W: Write>(out: &mut W, text: &mut TextLine, line: &Line) -> Written {
    text.clear();
    text.number(line.moment);
    text.byte(b' ');
    put_caller(text, &line.cred);
    text.byte(b' ');
    put_call(out, text, &line.call)?;
    text.put_end(out)
}

/// Writes the lines of a script.
fn put_script<W: Write>(out: &mut W, script: &Script) -> Written {
    let mut text = TextLine::new();
    for line in script.lines() {
        put_line(out, &mut text, line)?;
    }
    Ok(())
}

/// What a script comes to that was read from this text.
fn answer_of_read(alloc: Global, text: &[u8], script: &Script) -> io::Result<Answer> {
    let mut spelled = Vec::new(alloc);
    if put_script(&mut spelled, script).is_err() {
        return Err(io::Error::from(io::ErrorKind::OutOfMemory));
    }
    if spelled.as_slice() == text {
        return Ok(Answer::Read);
    }
    if spelled == one_spelling(alloc, text)? {
        return Ok(Answer::Respelled);
    }
    Ok(Answer::SpelledOtherwise)
}

/// What a text comes to as a script.
pub(crate) fn answer_of_script(alloc: Global, text: &[u8]) -> io::Result<Answer> {
    match Script::read(alloc, text) {
        Ok(script) => answer_of_read(alloc, text, &script),
        Err(fault) => Ok(answer_of_fault::<Script>(alloc, text, 0, fault)?),
    }
}

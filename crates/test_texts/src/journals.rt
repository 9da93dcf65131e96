//! Journals: read, and spelled again.

use crate::answer::Answer;
use crate::faults::answer_of_fault;
use qplain::Journal;
use qtext_files::{FromText, write_journal};
use std::alloc::Global;
use std::io;

/// What a journal comes to that was read from this text.
fn answer_of_read(alloc: Global, text: &[u8], journal: &Journal) -> io::Result<Answer> {
    let mut spelled = Vec::new(alloc);
    if write_journal(journal, &mut spelled).is_err() {
        return Err(io::Error::from(io::ErrorKind::OutOfMemory));
    }
    if spelled.as_slice() == text {
        return Ok(Answer::Read);
    }
    Ok(Answer::SpelledOtherwise)
}

/// What a text comes to as a journal.
pub(crate) fn answer_of_journal(alloc: Global, text: &[u8]) -> io::Result<Answer> {
    match Journal::read(alloc, text) {
        Ok(journal) => answer_of_read(alloc, text, &journal),
        Err(fault) => Ok(answer_of_fault::<Journal>(alloc, text, 1, fault)?),
    }
}

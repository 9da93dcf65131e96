//! Journals, and writers that refuse them.

use crate::memory_files::JOURNAL;
use crate::short::Short;
use qplain::Entry;
use qtool::{FromText, Journal, write_journal};
use std::alloc::{AllocError, Global};
use std::process::Abort;
use std::test::Fail;

/// A journal whose data are longer than what is written of them at once, and one that tells of bytes.
fn long_journal(alloc: Global) -> Result<Vec<u8>, AllocError> {
    let mut text = Vec::from_slice(alloc, b"quotafs journal 1 workers 2\n2 0 7:7,0 write /a 0 ")?;
    for _ in 0..300 {
        text.extend_from_slice(b"61")?;
    }
    text.extend_from_slice(b" => refused ENOENT\n1 9 0:0 read /a 0 3 => bytes 6f6b0a\n")?;
    Ok(text)
}

/// Whether a journal is written so to a writer that takes so many bytes: whole, or a beginning of that length, of which
/// the writer's refusal is told.
fn is_written(alloc: Global, journal: &Journal, text: &[u8], left: usize) -> bool {
    let mut out = Short::new(alloc, left, true);
    let is_told = match write_journal(journal, &mut out) {
        Ok(()) => left == text.len(),
        Err(fault) => left < text.len() && fault.number() == 62,
    };
    is_told && out.taken.len() == left && text.starts_with(out.taken.as_slice())
}

/// Looks at each beginning of the journal's text, and at the whole of it.
fn try_beginnings(rt: &impl Abort, alloc: Global, text: &[u8]) -> Result<(), &'static str> {
    let Ok(journal) = Journal::read(alloc, text) else {
        return Err("a journal");
    };
    for left in 0..text.len() + 1 {
        assert!(rt; is_written(alloc, &journal, text, left), "at {left}");
    }
    Ok(())
}

#[test]
fn a_refusing_writer_holds_a_beginning_of_the_journal(rt: HostRuntime) -> Result<(), Fail> {
    let long = long_journal(rt.alloc())?;
    try_beginnings(&rt, rt.alloc(), JOURNAL)?;
    Ok(try_beginnings(&rt, rt.alloc(), &long)?)
}

/// Whether a copy of each entry is equal to it.
fn are_copied(entries: &[Entry]) -> Result<bool, AllocError> {
    for entry in entries {
        if entry.copy()? != *entry {
            return Ok(false);
        }
    }
    Ok(entries.len() == 3)
}

#[test]
fn copies_of_entries_are_equal(rt: HostRuntime) -> Result<(), Fail> {
    match Journal::read(rt.alloc(), JOURNAL) {
        Ok(journal) => assert!(rt; are_copied(journal.entries())?),
        Err(_) => return Err(Fail::from("a journal")),
    }
    Ok(())
}

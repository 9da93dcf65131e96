//! Journals, read from text.
ghost use Rattle.std.specs.Prelude.{◌≡◌, ◌≤◌, ◌⊎◌, Ok, Err, IfOk, length};
ghost use Rattle.qplain.specs.Editions.{max_entries_of};
ghost use Rattle.qtext.specs.Gives.{Reads};
ghost use Rattle.qtext.specs.Reading.{each_of};
ghost use Rattle.qtext.specs.Words.{parts};
ghost use Rattle.qtext_files.specs.RawLines.{raw_lines_from};
ghost use Rattle.qtext_files.specs.Journals.{at_entry, journal_of};
ghost use Rattle.qtext.specs.TextFaults.{want_of_memory};

use crate::FromText;
use crate::callers::Callers;
use crate::entry::EntryReader;
use crate::head::{Head, head_of};
use crate::lines::{WANT_OF_MEMORY, read_lines};
use crate::raw_line::next_line;
use qplain::{Entry, Journal};
use qrules::Items;
use qtext::{ReadFault, TextFault, TextKind};
use qtext_read::Paths;
use std::alloc::Global;

/// The entries after the first line, or the first line at fault.
pub(crate) fn entries_of(alloc: Global, head: Head, text: &[u8]) -> Result<Items<Entry>, TextFault>
    ensures entries { Reads result (each_of (at_entry head) (raw_lines_from 2 (parts 10 text.now))) }
    ensures few { IfOk result (λ entries. length entries ≤ max_entries_of head.edition) }
{
    let mut reader = EntryReader {
        alloc,
        head,
        callers: Callers::new(alloc),
        paths: Paths::of(text),
    };
    read_lines(alloc, &mut reader, 1, text)
}

/// What a text says, or the first line at fault.
fn journal_in(alloc: Global, text: &[u8]) -> Result<Journal, TextFault>
    ensures { (result ≡ journal_of text.now) ⊎ (result ≡ Err want_of_memory) }
{
    if text.is_empty() {
        return Err(TextFault {
            line: 1,
            kind: TextKind::BadHead,
        });
    }
    let mut room = Vec::new(alloc);
    let Ok(first) = next_line(&mut room, text) else {
        return Err(WANT_OF_MEMORY);
    };
    let head = match head_of(&first, &room) {
        Ok(head) => head,
        Err(ReadFault::Memory) => return Err(WANT_OF_MEMORY),
        Err(ReadFault::Fault(kind)) => return Err(TextFault { line: 1, kind }),
    };
    let entries = entries_of(alloc, head, first.after)?;
    Ok(Journal::new(head.edition, head.workers, entries))
}

/// The first line is `quotafs journal E workers W`, E the edition, 1 or 2, and W from 1 to 16. Each further one is
/// `WORKER MOMENT CALLER CALL => REPLY`, the worker from 1 to W, with a line feed after it; there are at most 65,536 in
/// edition 1, and 1,048,576 in edition 2.
/// Data are in lower case, and no call is `fill`. In edition 1 nothing names a project. Lines count from 1.
impl FromText for Journal {
    ghost use Rattle.std.specs.List.{AllByRecursion};
    ghost use Rattle.qtext_files.specs.Journals.{journal_of};
    ghost use Rattle.qtext_files.specs.Spelling.{journal_spelling};
    ghost use Rattle.qplain.specs.Held.{IsHeld};
    ghost use Rattle.qplain.specs.Journals.{IsJournal, Written};
    ghost use Rattle.qtext.specs.TextFaults.{want_of_memory};

    ghost says = { journal_of };

    /// Reads a journal: its edition, workers and entries, or the first line at fault with the first thing wrong in it.
    ///
    /// In a line the first of these is reported: too many entries, no line feed, a byte outside 0x20 to 0x7E, the head,
    /// the worker, the moment, the caller, the verb, too few arguments, the arguments from left to right, the reply.
    /// That an entry is read says nothing of whether a store answers so.
    ///
    /// An Err gives nothing of it. Line 0 is at fault where memory is wanting, whatever the text says.
    fn read(alloc: Global, text: &[u8]) -> Result<Self, TextFault>
        // What the text says, out of memory aside.
        ensures exact { (result ≡ journal_of text.now) ⊎ (result ≡ Err want_of_memory) }

        // A journal that was read is spelled so, byte by byte.
        ensures spelled { IfOk result (λ j. journal_spelling j ≡ text.now) }

        // Its entries can be spelled out.
        ensures held { IfOk result (λ j. AllByRecursion IsHeld j.entries) }

        // A journal that is spelled out is read again.
        ensures again { (j : Written) → IsJournal j → AllByRecursion IsHeld j.entries → text.now ≡ journal_spelling j
            → (result ≡ Ok j) ⊎ (result ≡ Err want_of_memory) }
    {
        journal_in(alloc, text)
    }
}

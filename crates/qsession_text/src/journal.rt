//! The journal of a session.
ghost use Rattle.std.specs.Prelude.{◌≡◌, Some, IfOk, OnOk};
ghost use Rattle.qtext_files.specs.Spelling.{CanBeRead, journal_spelling};
ghost use Rattle.qsession.specs.Holdings.{holding_of};
ghost use Rattle.qsession.specs.Replies.{tallies_in};
ghost use Rattle.qsession.specs.Tellings.{IsToldAs, IsPutIn, UnlessMemory};
ghost use Rattle.qsession_text.specs.Journals.{IsReadAgain, session_journal, journal_written, tallied, text_of};

use crate::buffer::put_text;
use qplain::{Edition, Entry, Journal, NoMemory};
use qrules::Items;
use qsession::{Fault, Kept, Recorder, TallyReply};
use qtext_files::put_journal;
use std::alloc::Global;

/// Copies of the entries, which share what these have.
fn copies_of(alloc: Global, entries: &[Entry]) -> Result<Vec<Entry>, NoMemory>
    ensures { IfOk result (λ copies. copies.items ≡ entries.now) }
{
    let mut copies = Vec::new(alloc);
    copies.reserve(entries.len())?;
    for entry in entries {
        copies.push(entry.copy()?)?;
    }
    Ok(copies)
}

/// The journal, with copies of its entries.
fn journal_of(alloc: Global, recorder: &Recorder) -> Result<Journal, NoMemory>
    ensures { IfOk result (λ journal. journal ≡ journal_written recorder.now.journal) }
{
    let entries = copies_of(alloc, recorder.entries())?;
    Ok(Journal::new(Edition::Two, 1, Items::new(entries)))
}

/// The text of a session's journal, of edition 2 and one worker, which is read again as that journal. Beside the text
/// each entry is copied, but not its path and its bytes.
fn journal_text(alloc: Global, recorder: &Recorder) -> Result<Vec<u8>, NoMemory>
    ensures spelled { IfOk result (λ text. text.items ≡ journal_spelling (journal_written recorder.now.journal)) }
    ensures again { OnOk result (CanBeRead (journal_written recorder.now.journal)) }
{
    let journal = journal_of(alloc, recorder)?;
    let mut text = Vec::new(alloc);
    match put_journal(&mut text, &journal) {
        Ok(()) => Ok(text),
        Err(_) => Err(NoMemory),
    }
}

/// Writes the journal of what is kept at the front of the buffer, as `quotafs replay` plays it again, and tells how
/// long it is.
///
/// Returns 0; 65 for want of memory, 69 where the buffer has too few bytes, 73 where no journal is kept.
pub fn tell_journal(alloc: Global, kept: &Kept, buffer: &mut [u8], len: &mut usize) -> u32
    ensures journal { UnlessMemory (Some (holding_of kept.now)) result
        (IsPutIn (text_of (session_journal (Some (holding_of kept.now)))) buffer.new len.new result) }
    ensures again { result ≡ 0 → IsReadAgain (session_journal (Some (holding_of kept.now))) }
{
    let Some(recorder) = kept.recorder() else {
        return Fault::NoJournal.code();
    };
    match journal_text(alloc, recorder) {
        Ok(text) => put_text(&text, buffer, len),
        Err(_) => Fault::Memory.code(),
    }
}

/// Tells the tally of the journal of what is kept.
///
/// Returns 0, or 73 where no journal is kept.
pub fn tell_tally(kept: &Kept, tally: &mut TallyReply) -> u32
    ensures { IsToldAs (tallied (session_journal (Some (holding_of kept.now)))) (tallies_in tally.new) result }
{
    let Some(recorder) = kept.recorder() else {
        return Fault::NoJournal.code();
    };
    *tally = TallyReply::of(recorder.tallies());
    0
}

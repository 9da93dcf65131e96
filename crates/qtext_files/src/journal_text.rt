//! Journals as text.
ghost use Rattle.std.specs.Prelude.{◌≡◌, ◌≤◌, ℕ, ◌++◌, length, codes, decimal, IfOk};
ghost use Rattle.std.specs.List.{AllByRecursion, flat_map};
ghost use Rattle.qplain.specs.Held.{HasLawfulStat, IsHeld};
ghost use Rattle.qtext.specs.Written.{Writes};
ghost use Rattle.qplain.specs.Journals.{IsJournal};
ghost use Rattle.qtext_files.specs.Segments.{CanBeReadFrom, MAX_PLACE, from_text, placed_text, segment_spelling};
ghost use Rattle.qtext_files.specs.Spelling.{CanBeRead, entry_text, journal_spelling};

use qplain::{Edition, Entry, Journal};
use qtext::{RefusedWrite, TextLine, Written};
use qtext_write::{WriteFault, put_call, put_caller, put_reply};
use std::io::Write;

/// What the head says before the number of workers.
fn head_start(edition: Edition) -> &'static [u8]
    ensures begins { (from workers : ℕ) → ((result.now ++ decimal workers) ++ from_text from) ++ codes "\n"
        ≡ placed_text from edition workers }
    ensures short { length result.now ≤ 26 }
{
    match edition {
        Edition::One => b"quotafs journal 1 workers ",
        Edition::Two => b"quotafs journal 2 workers ",
    }
}

/// ` from PLACE`, where the place is not 0, after what is there.
fn put_from(line: &mut TextLine, from: u64)
    requires { length line.old ≤ 46 }
    ensures text { line.new ≡ line.old ++ from_text from }
    ensures short { length line.new ≤ 72 }
{
    if from != 0 {
        line.text(b" from ");
        line.number(from);
    }
}

/// `quotafs journal E workers W`, and the place behind it where it is not 0.
fn put_head<W: Write>(
    out: &mut W,
    line: &mut TextLine,
    edition: Edition,
    workers: u64,
    from: u64,
) -> Written
    ensures { Writes (W.contents out.old) (W.contents out.new) result (placed_text from edition workers) }
{
    line.clear();
    line.text(head_start(edition));
    line.number(workers);
    put_from(line, from);
    line.put_end(out)
}

/// `WORKER MOMENT CALLER CALL => REPLY`.
fn put_entry<W: Write>(out: &mut W, line: &mut TextLine, entry: &Entry) -> Written
    ensures writes { Writes (W.contents out.old) (W.contents out.new) result (entry_text entry.now) }
    ensures held { IfOk result (λ _. HasLawfulStat entry.now.reply → IsHeld entry.now) }
{
    line.clear();
    line.number(entry.worker);
    line.field(entry.moment);
    line.byte(b' ');
    put_caller(line, &entry.cred);
    line.byte(b' ');
    put_call(out, line, &entry.call)?;
    line.text(b" => ");
    put_reply(out, line, &entry.reply)
}

fn put_entries<W: Write>(out: &mut W, line: &mut TextLine, entries: &[Entry]) -> Written
    ensures writes { Writes (W.contents out.old) (W.contents out.new) result (flat_map entry_text entries.now) }
    ensures held { IfOk result (λ _. AllByRecursion (λ e. HasLawfulStat e.reply → IsHeld e) entries.now) }
{
    for entry in entries {
        put_entry(out, line, entry)?;
    }
    Ok(())
}

/// A head and the entries.
fn put_both<W: Write>(out: &mut W, from: u64, journal: &Journal) -> Written
    ensures writes { Writes (W.contents out.old) (W.contents out.new) result (segment_spelling from journal.now) }
    ensures held { IfOk result
        (λ _. AllByRecursion (λ e. HasLawfulStat e.reply → IsHeld e) journal.now.entries) }
    ensures lawful { IsJournal journal.now }
{
    let entries = journal.entries();
    let mut line = TextLine::new();
    put_head(out, &mut line, journal.edition(), journal.workers(), from)?;
    put_entries(out, &mut line, entries)
}

/// Writes the journal in its one spelling: the head, and a line for each entry, data in lower case and numbers without
/// leading zeros. It takes no memory.
///
/// After an Err some beginning of the text went out.
pub fn put_journal<W: Write>(out: &mut W, journal: &Journal) -> Written
    ensures writes { Writes (W.contents out.old) (W.contents out.new) result (journal_spelling journal.now) }

    // What was written whole is read again as that journal: whoever spelled each part knows that its type can hold it.
    ensures again { IfOk result (λ _. CanBeRead journal.now) }
{
    put_both(out, 0, journal)
}

/// Writes a journal that begins at a place, as `put_journal` does: the head tells the place, unless that is 0.
pub fn put_segment<W: Write>(out: &mut W, from: u64, journal: &Journal) -> Written
    ensures writes { Writes (W.contents out.old) (W.contents out.new) result (segment_spelling from journal.now) }

    // What was written whole, at a place that a journal may have, is read again as that journal at that place.
    ensures again { from ≤ MAX_PLACE → IfOk result (λ _. CanBeReadFrom from journal.now) }
{
    put_both(out, from, journal)
}

/// The journal, of which a refusal has its number.
pub fn write_journal<W: Write>(journal: &Journal, out: &mut W) -> Result<(), WriteFault>
    ensures writes { Writes (W.contents out.old) (W.contents out.new) result (journal_spelling journal.now) }

    // What was written whole is read again as that journal: whoever spelled each part knows that its type can hold it.
    ensures again { IfOk result (λ _. CanBeRead journal.now) }
{
    match put_journal(out, journal) {
        Ok(()) => Ok(()),
        Err(RefusedWrite) => Err(WriteFault::Write),
    }
}

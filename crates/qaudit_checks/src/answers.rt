//! A transcript's receipts beside its worker's entries.
ghost use Rattle.std.specs.Prelude.{◌≡◌, ◌≤◌, length, drop, slice_get, IfSome, IsOk, Some};
ghost use Rattle.std.specs.Bool.{Decides};
ghost use Rattle.qplain.specs.Transcripts.{journaled_lines};
ghost use Rattle.qaudit_checks.specs.FirstMismatch.{IsFirstOther, IsNextReceipt};

use crate::comparing::stands_for;
use qplain::{CallFault, Entry, Line, Receipt, Transcript};

/// The index of the next receipt, from this one on, or how many answers there are.
fn next_receipt(answers: &[Result<Receipt, CallFault>], from: usize) -> usize
    requires within { from ≤ length answers.now }
    ensures { IsNextReceipt answers.now from result }
{
    let mut at = from;
    while at < answers.len() && answers[at].is_err() {
        at += 1;
    }
    at
}

/// Whether the receipt of this index, if there is one, stands for the entry at this place.
fn is_next(
    lines: &[Line],
    answers: &[Result<Receipt, CallFault>],
    at: usize,
    place: u64,
    entry: &Entry,
) -> bool
    requires each { length answers.now ≡ length lines.now }
    requires within { at ≤ length answers.now }
    requires receipt { IfSome (slice_get answers.now at) IsOk }
    ensures { Decides result
        (slice_get (journaled_lines entry.now.worker (drop at lines.now) (drop at answers.now)) 0
        ≡ Some (place, entry.now)) }
{
    at < answers.len() && stands_for(&lines[at], &answers[at], place, entry)
}

/// Where a transcript and its worker's entries first differ: the place of an entry, or the one after the journal.
pub(crate) fn first_other(entries: &[Entry], transcript: &Transcript) -> Option<u64>
    requires each { length transcript.now.answers ≡ length transcript.now.lines }
    ensures { IsFirstOther entries.now transcript.now result }
{
    let lines = transcript.lines.as_slice();
    let answers = transcript.answers.as_slice();
    let mut seen = 0;
    let mut place = 1u64;
    for entry in entries {
        if entry.worker == transcript.worker {
            seen = next_receipt(answers, seen);
            if !is_next(lines, answers, seen, place, entry) {
                return Some(place);
            }
            seen += 1;
        }
        place += 1;
    }
    if next_receipt(answers, seen) < answers.len() {
        return Some(place);
    }
    None
}

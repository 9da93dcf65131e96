//! Entries of workers without a transcript.
ghost use Rattle.std.specs.Prelude.{Contains, map};
ghost use Rattle.std.specs.Bool.{Decides};
ghost use Rattle.qaudit_checks.specs.FirstMismatch.{IsFirstStrange};

use qplain::{Entry, Transcript};

/// Whether one of the transcripts is the worker's.
fn has_transcript(transcripts: &[Transcript], worker: u64) -> bool
    ensures { Decides result (Contains (map (λ t. t.worker) transcripts.now) worker) }
{
    for transcript in transcripts {
        if transcript.worker == worker {
            return true;
        }
    }
    false
}

/// The place of the first entry whose worker has no transcript.
pub(crate) fn first_strange(entries: &[Entry], transcripts: &[Transcript]) -> Option<u64>
    ensures { IsFirstStrange entries.now transcripts.now result }
{
    let mut place = 0u64;
    for entry in entries {
        place += 1;
        if !has_transcript(transcripts, entry.worker) {
            return Some(place);
        }
    }
    None
}

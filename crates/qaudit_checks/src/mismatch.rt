//! Whether a journal and its transcripts tell the same.
ghost use Rattle.std.specs.Prelude.{◌≡◌, ◌==◌, ◌↔◌, length, All, IsOk, IfErr};
ghost use Rattle.std.specs.List.{IsDistinct};
ghost use Rattle.qaudit_checks.specs.FirstMismatch.{earlier_of};
ghost use Rattle.qaudit_checks.specs.Gathered.{IsGathered, IsMismatch};

use crate::answers::first_other;
use crate::strangers::first_strange;
use qplain::{Entry, Transcript};

/// Where a journal and its transcripts first differ.
#[derive(Clone, Copy, Debug, PartialEq, Eq)]
pub struct Mismatch {
    /// The place of an entry, from 1, or the one after the journal.
    pub place: u64,
}

/// The earlier of two places, of which there may be none.
fn earlier_of(one: Option<u64>, other: Option<u64>) -> Option<u64>
    ensures { result ≡ earlier_of one other }
{
    match (one, other) {
        (None, other) => other,
        (one, None) => one,
        (Some(one), Some(other)) => Some(if other < one { other } else { one }),
    }
}

/// Checks a journal against the transcripts of its workers.
///
/// They tell the same where the receipts of each transcript are its worker's entries, in order and with their places,
/// and no entry is of a worker without a transcript. Else the least place whose entry fails is reported, or the one
/// after the journal where a receipt is left over. No memory is taken. O(entries) for each transcript, and the answers.
pub fn gather(entries: &[Entry], transcripts: &[Transcript]) -> Result<(), Mismatch>
    requires apart { IsDistinct (λ one other. one.worker == other.worker) transcripts.now }
    requires each { All (λ t. length t.answers ≡ length t.lines) transcripts.now }
    ensures ok { IsOk result ↔ IsGathered entries.now transcripts.now }
    ensures err { IfErr result (λ mismatch. IsMismatch entries.now transcripts.now mismatch.place) }
{
    let mut first = first_strange(entries, transcripts);
    for transcript in transcripts {
        first = earlier_of(first, first_other(entries, transcript));
    }
    match first {
        None => Ok(()),
        Some(place) => Err(Mismatch { place }),
    }
}

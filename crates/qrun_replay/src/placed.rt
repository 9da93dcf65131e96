//! Transcripts whose lines and replies stand in a journal alone, but for the lines that failed.
ghost use Rattle.std.specs.Prelude.{◌≡◌, ◌<◌, length, slice_index_or, Result};
ghost use Rattle.qplain.specs.declared.call_fault.CallFault.{CallFault};
ghost use Rattle.qplain.specs.declared.line.Line.{Line};
ghost use Rattle.qplain.specs.declared.receipt.Receipt.{Receipt};
ghost use Rattle.qrun_replay.specs.Placed.{HoldsPlaces, transcript_from};

use crate::answered::Answered;
use crate::placed_line::PlacedLine;
use crate::placed_reply::PlacedReply;
use crate::places::Stand;
use crate::shared_journal::SharedJournal;
use qplain::CallFault;
use std::marker::Model;

/// The transcript of a worker, whose lines and replies stand in a journal alone, but for the lines that failed.
/// Contracts see a transcript.
#[derive(Drop)]
pub struct PlacedTranscript {
    answered: Answered,
    journal: SharedJournal,
}

impl Model for PlacedTranscript {
    ghost use Rattle.qplain.specs.declared.transcript.Transcript.{Transcript};
    ghost use Rattle.qrun_replay.specs.Placed.{HoldsPlaces, transcript_from};

    ghost Value = { Transcript };

    ghost view = { λ t. transcript_from t.journal.entries t.answered };

    ghost invariant = { λ t. HoldsPlaces t.journal.entries t.answered };
}

impl PlacedTranscript {
    /// The transcript of who was answered so, in whose places the journal has the lines and the replies.
    pub fn new(answered: Answered, journal: SharedJournal) -> Self
        requires { HoldsPlaces journal.entries answered }
        ensures { result ≡ transcript_from journal.entries answered }
    {
        PlacedTranscript { answered, journal }
    }

    /// The worker's number, from 1.
    pub fn worker(&self) -> u64
        ensures { result ≡ self.now.worker }
    {
        self.answered.worker
    }

    /// How many lines there are, and answers to them.
    pub fn len(&self) -> usize
        ensures lines { result ≡ length self.now.lines }
        ensures answers { result ≡ length self.now.answers }
    {
        self.answered.places.len()
    }

    /// The line of this index, from 0.
    #[inline(always)]
    pub fn line(&self, index: usize) -> PlacedLine<'_>
        requires { index < length self.now.lines }
        ensures { (default : Line) → result ≡ slice_index_or self.now.lines index default }
    {
        match self.answered.places.get(index) {
            Stand::Journaled(place) => PlacedLine::of_entry(self.journal.entry(place)),
            Stand::Failed(failed) => PlacedLine::of_line(&failed.line),
        }
    }

    /// The answer to the line of this index, from 0.
    #[inline(always)]
    pub fn answer(&self, index: usize) -> Result<PlacedReply<'_>, CallFault>
        requires { index < length self.now.answers }
        ensures { (default : Result Receipt CallFault) → result ≡ slice_index_or self.now.answers index default }
    {
        match self.answered.places.get(index) {
            Stand::Journaled(place) => {
                let entry = self.journal.entry(place);
                Ok(PlacedReply::new(place, &entry.reply))
            }
            Stand::Failed(failed) => Err(failed.fault),
        }
    }
}

//! The moment as of which an outcome is reported.
ghost use Rattle.std.specs.Prelude.{◌≡◌, fold, map, max};
ghost use Rattle.qtext_outcome.specs.Moments.{moment_of, moments_in};

use qrun_replay::PlacedTranscript;
use qtext::ReportMoment;

/// The greatest of a moment and those of a transcript's lines.
fn last_of(transcript: &PlacedTranscript, least: u64) -> u64
    ensures { result ≡ fold max least (map (λ l. l.moment) transcript.now.lines) }
{
    let mut last = least;
    for at in 0..transcript.len() {
        last = last.max(transcript.line(at).moment());
    }
    last
}

/// The greatest moment of any line, and 0 where there is none.
fn last_moment(transcripts: &[PlacedTranscript]) -> u64
    ensures { result ≡ fold max 0 (moments_in transcripts.now) }
{
    let mut last = 0;
    for transcript in transcripts {
        last = last_of(transcript, last);
    }
    last
}

/// The moment that is asked for of the lines of these transcripts.
pub fn report_moment(at: ReportMoment, transcripts: &[PlacedTranscript]) -> u64
    ensures { result ≡ moment_of at transcripts.now }
{
    match at {
        ReportMoment::At(moment) => moment,
        ReportMoment::Last => last_moment(transcripts),
    }
}

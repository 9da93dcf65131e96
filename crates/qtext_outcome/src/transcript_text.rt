//! Transcripts as text.
ghost use Rattle.std.specs.List.{flat_map};
ghost use Rattle.qtext.specs.Written.{Writes};
ghost use Rattle.qtext_outcome.specs.Calls.{answers_text, shown_transcript};
ghost use Rattle.qtext_write.specs.Answers.{answer_text};

use crate::called_text::put_called_lines;
use crate::counts::put_counts;
use qplain::CallFault;
use qrun_replay::{PlacedReply, PlacedTranscript};
use qtext::{TextLine, Written};
use qtext_write::put_reply;
use std::io::Write;

/// Writes the line of a journaled call, which is put together in place of what the text line holds.
fn put_receipt<W: Write>(out: &mut W, line: &mut TextLine, receipt: PlacedReply<'_>) -> Written
    ensures { Writes (W.contents out.old) (W.contents out.new) result (answer_text (Ok receipt.entry)) }
{
    line.clear();
    line.number(receipt.place());
    line.byte(b' ');
    put_reply(out, line, receipt.reply())
}

/// Writes the line of an answer in the same way.
pub(crate) fn put_answer<W: Write>(
    out: &mut W,
    line: &mut TextLine,
    answer: Result<PlacedReply<'_>, CallFault>,
) -> Written
    ensures { Writes (W.contents out.old) (W.contents out.new) result (answer_text answer.entry) }
{
    match answer {
        Ok(receipt) => put_receipt(out, line, receipt),
        Err(fault) => qtext_write::put_answer(out, line, &Err(fault)),
    }
}

fn put_lines<W: Write>(out: &mut W, transcript: &PlacedTranscript) -> Written
    ensures { Writes (W.contents out.old) (W.contents out.new) result (flat_map answer_text transcript.now.answers) }
{
    let mut line = TextLine::new();
    for at in 0..transcript.len() {
        put_answer(out, &mut line, transcript.answer(at))?;
    }
    Ok(())
}

/// Writes what each line was answered, behind the line where calls are asked for.
fn put_answers<W: Write>(out: &mut W, calls: bool, transcript: &PlacedTranscript) -> Written
    ensures { Writes (W.contents out.old) (W.contents out.new) result (answers_text calls transcript.now) }
{
    if calls {
        put_called_lines(out, transcript)
    } else {
        put_lines(out, transcript)
    }
}

#[tactic(auto, using(qtext::proofs::Fronts::front_of_first, qtext::proofs::Fronts::writes_then))]
fn put_transcript<W: Write>(out: &mut W, calls: bool, transcript: &PlacedTranscript) -> Written
    ensures { Writes (W.contents out.old) (W.contents out.new) result (shown_transcript calls transcript.now) }
{
    put_counts(out, &[(b"worker ", transcript.worker())])?;
    put_answers(out, calls, transcript)
}

/// Writes the transcripts, one after the other, with the lines of the scripts where calls are asked for.
pub(crate) fn put_transcripts<W: Write>(
    out: &mut W,
    calls: bool,
    transcripts: &[PlacedTranscript],
) -> Written
    ensures { Writes (W.contents out.old) (W.contents out.new) result
        (flat_map (shown_transcript calls) transcripts.now) }
{
    for transcript in transcripts {
        put_transcript(out, calls, transcript)?;
    }
    Ok(())
}

//! The lines of transcripts as objects.
ghost use Rattle.std.specs.Prelude.{◌++◌, [], if◌then◌else◌};
ghost use Rattle.qtext.specs.Written.{Writes};
ghost use Rattle.qtext_rows.specs.Lines.{asked_members, line_object, line_start, shown_call_member};
ghost use Rattle.qtext_rows.specs.Lines.{transcript_objects, transcripts_objects};
ghost use Rattle.qtext_rows.specs.Replies.{answer_members};

use crate::call_members::{put_call, put_caller_members, put_fill};
use crate::part::{Part, put_parts};
use crate::reply_members::{put_failed, put_receipt};
use crate::value::Value;
use qplain::{Call, CallFault};
use qrun_replay::{PlacedLine, PlacedReply, PlacedTranscript};
use qtext::Written;
use qtext_outcome::repeated;
use std::io::Write;

fn put_start<W: Write>(out: &mut W, worker: u64, place: u64) -> Written
    ensures { Writes (W.contents out.old) (W.contents out.new) result (line_start worker place) }
{
    let parts = [
        Part::Open(b"line"),
        Part::Member(b"worker", Value::Number(worker)),
        Part::Member(b"line", Value::Number(place)),
    ];
    put_parts(out, &parts)
}

/// Writes a call, of which a write is told as a fill where all of its bytes are equal.
fn put_shown_call<W: Write>(out: &mut W, call: &Call) -> Written
    ensures { Writes (W.contents out.old) (W.contents out.new) result (shown_call_member call.now) }
{
    match call {
        Call::Write { path, off, bytes } => match repeated(bytes.input()) {
            Some(byte) => put_fill(out, path, *off, bytes.len(), byte),
            None => put_call(out, call),
        },
        call => put_call(out, call),
    }
}

fn put_asked<W: Write>(out: &mut W, line: &PlacedLine<'_>) -> Written
    ensures { Writes (W.contents out.old) (W.contents out.new) result (asked_members line.now) }
{
    put_caller_members(out, line.moment(), line.cred())?;
    put_shown_call(out, line.call())
}

/// Writes what a line asked for, where calls are to be shown.
fn put_shown<W: Write>(out: &mut W, calls: bool, line: &PlacedLine<'_>) -> Written
    ensures { Writes (W.contents out.old) (W.contents out.new) result (if calls then asked_members line.now else []) }
{
    if calls { put_asked(out, line) } else { Ok(()) }
}

/// Writes what a line was answered.
fn put_answer<W: Write>(out: &mut W, answer: Result<PlacedReply<'_>, CallFault>) -> Written
    ensures { Writes (W.contents out.old) (W.contents out.new) result (answer_members answer.entry) }
{
    match answer {
        Ok(receipt) => put_receipt(out, receipt.place(), receipt.reply()),
        Err(fault) => put_failed(out, fault),
    }
}

#[tactic(auto, using(qtext::proofs::Fronts::front_of_first, qtext::proofs::Fronts::writes_then))]
fn put_rest<W: Write>(
    out: &mut W,
    calls: bool,
    line: &PlacedLine<'_>,
    answer: Result<PlacedReply<'_>, CallFault>,
) -> Written
    ensures { Writes (W.contents out.old) (W.contents out.new) result
        ((if calls then asked_members line.now else []) ++ answer_members answer.entry) }
{
    put_shown(out, calls, line)?;
    put_answer(out, answer)
}

/// Writes the object of a worker's line.
#[tactic(auto, using(qtext::proofs::Fronts::front_of_first, qtext::proofs::Fronts::writes_then))]
fn put_line<W: Write>(
    out: &mut W,
    calls: bool,
    worker: u64,
    place: u64,
    line: &PlacedLine<'_>,
    answer: Result<PlacedReply<'_>, CallFault>,
) -> Written
    ensures { Writes (W.contents out.old) (W.contents out.new) result
        (line_object calls worker place line.now answer.entry) }
{
    put_start(out, worker, place)?;
    put_rest(out, calls, line, answer)
}

/// Writes an object for each line of a transcript with what it was answered.
fn put_transcript<W: Write>(out: &mut W, calls: bool, transcript: &PlacedTranscript) -> Written
    ensures { Writes (W.contents out.old) (W.contents out.new) result (transcript_objects calls transcript.now) }
{
    let worker = transcript.worker();
    for at in 0..transcript.len() {
        let line = transcript.line(at);
        let answer = transcript.answer(at);
        put_line(out, calls, worker, at as u64 + 1, &line, answer)?;
    }
    Ok(())
}

/// Writes the objects of all lines, one transcript after the other.
pub(crate) fn put_transcripts<W: Write>(
    out: &mut W,
    calls: bool,
    transcripts: &[PlacedTranscript],
) -> Written
    ensures { Writes (W.contents out.old) (W.contents out.new) result (transcripts_objects calls transcripts.now) }
{
    for transcript in transcripts {
        put_transcript(out, calls, transcript)?;
    }
    Ok(())
}

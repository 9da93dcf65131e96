//! The lines of the scripts, each with what it was answered.
ghost use Rattle.std.specs.Prelude.{◌≡◌, ◌≤◌, ◌++◌, ◌==◌, length, IfOk};
ghost use Rattle.std.specs.List.{list_all};
ghost use Rattle.qblocks.specs.Input.{input_bytes};
ghost use Rattle.qtext.specs.Written.{Passes, Writes};
ghost use Rattle.qtext_write.specs.declared.call_text.TheConstants.{CALL_PLACE, CALL_ROOM};
ghost use Rattle.qtext_outcome.specs.Calls.{called_lines, called_text, fill_text, repeated, shown_call};

use crate::transcript_text::put_answer;
use qblocks::Input;
use qplain::{Call, CallFault, Path};
use qrun_replay::{PlacedLine, PlacedReply, PlacedTranscript};
use qtext::{TextLine, Written};
use qtext_write::{CALL_PLACE, CALL_ROOM, put_call, put_caller};
use std::io::Write;

/// As many bytes at most are told as they are, though all are equal.
const FEW: usize = 32;

/// Whether all of these are this byte.
fn are_all(bytes: &[u8], byte: u8) -> bool
    ensures { result ≡ list_all (λ other. other == byte) bytes.now }
{
    bytes.iter().all(|other| *other == byte)
}

/// The byte that all of these are, where there are more than a few.
fn repeated_in(bytes: &[u8]) -> Option<u8>
    ensures { result ≡ repeated bytes.now }
{
    let Some((first, rest)) = bytes.split_first() else {
        return None;
    };
    if rest.len() >= FEW && are_all(rest, *first) {
        Some(*first)
    } else {
        None
    }
}

/// The byte that all of a write's are, where there are more than a few.
pub fn repeated(bytes: Input<'_>) -> Option<u8>
    ensures { result ≡ repeated (input_bytes bytes.entry) }
{
    match bytes {
        Input::Bytes(bytes) => repeated_in(bytes),
        Input::Fill { count, byte } if count > FEW as u64 => Some(byte),
        Input::Fill { .. } => None,
    }
}

/// `fill PATH OFF COUNT BYTE`.
fn put_fill<W: Write>(
    out: &mut W,
    line: &mut TextLine,
    path: &Path,
    off: u64,
    count: u64,
    byte: u8,
) -> Written
    requires { length line.old ≤ CALL_PLACE }
    ensures passes { Passes (W.contents out.old) (W.contents out.new) result
        (line.old ++ fill_text path.now off count byte) line.new }
    ensures short { IfOk result (λ _. length line.new ≤ CALL_ROOM) }
{
    line.text(b"fill ");
    line.put_word(out, path.bytes())?;
    line.field(off);
    line.field(count);
    line.byte(b' ');
    line.digits(&[byte]);
    Ok(())
}

/// A write, or a fill where all of its bytes are equal.
fn put_shown_call<W: Write>(out: &mut W, line: &mut TextLine, call: &Call) -> Written
    requires { length line.old ≤ CALL_PLACE }
    ensures passes { Passes (W.contents out.old) (W.contents out.new) result
        (line.old ++ shown_call call.now) line.new }
    ensures short { IfOk result (λ _. length line.new ≤ CALL_ROOM) }
{
    match call {
        Call::Write { path, off, bytes } => match repeated(bytes.input()) {
            Some(byte) => put_fill(out, line, path, *off, bytes.len(), byte),
            None => put_call(out, line, call),
        },
        call => put_call(out, line, call),
    }
}

/// `PLACE MOMENT CALLER CALL => `, and the answer.
fn put_called<W: Write>(
    out: &mut W,
    text: &mut TextLine,
    place: u64,
    line: &PlacedLine<'_>,
    answer: Result<PlacedReply<'_>, CallFault>,
) -> Written
    ensures { Writes (W.contents out.old) (W.contents out.new) result (called_text place line.now answer.entry) }
{
    text.clear();
    text.number(place);
    text.field(line.moment());
    text.byte(b' ');
    put_caller(text, line.cred());
    text.byte(b' ');
    put_shown_call(out, text, line.call())?;
    text.text(b" => ");
    text.put_all(out)?;
    put_answer(out, text, answer)
}

/// Writes each line with what it was answered.
pub(crate) fn put_called_lines<W: Write>(out: &mut W, transcript: &PlacedTranscript) -> Written
    ensures { Writes (W.contents out.old) (W.contents out.new) result
        (called_lines 1 transcript.now.lines transcript.now.answers) }
{
    let mut text = TextLine::new();
    for at in 0..transcript.len() {
        let line = transcript.line(at);
        let answer = transcript.answer(at);
        put_called(out, &mut text, at as u64 + 1, &line, answer)?;
    }
    Ok(())
}

//! Lines that were refused or failed.
ghost use Rattle.std.specs.Prelude.{◌≡◌, ◌↔◌, All, IsTrue, map};
ghost use Rattle.qtext.specs.Written.{Writes};
ghost use Rattle.qtext_outcome.specs.Denials.{
  IsDone,
  denial_line,
  denial_number,
  denials_text,
  denied,
  denied_in,
  kinds_text,
  refused_number,
};

use qplain::{CallFault, Reply};
use qrun_replay::{PlacedReply, PlacedTranscript};
use qtext::{Piece, Written, put_pieces};
use std::io::Write;

fn refused_number(reply: &Reply) -> u32
    ensures { result ≡ refused_number reply.now }
{
    match reply {
        Reply::Refused(refusal) => refusal.number(),
        _ => 0,
    }
}

/// The number of an answer's refusal or fault, and 0 where the call was done.
fn denial_number(answer: Result<PlacedReply<'_>, CallFault>) -> u32
    ensures { result ≡ denial_number answer.entry }
{
    match answer {
        Ok(receipt) => refused_number(receipt.reply()),
        Err(fault) => fault.number(),
    }
}

fn is_done(transcript: &PlacedTranscript) -> bool
    ensures { IsTrue result ↔ IsDone transcript.now }
{
    for at in 0..transcript.len() {
        if denial_number(transcript.answer(at)) != 0 {
            return false;
        }
    }
    true
}

/// Whether no line was refused or failed.
pub fn are_all_done(transcripts: &[PlacedTranscript]) -> bool
    ensures { IsTrue result ↔ All IsDone transcripts.now }
{
    transcripts.iter().all(is_done)
}

/// How many lines of a transcript were answered with this number.
fn denied_in(number: u32, transcript: &PlacedTranscript) -> usize
    ensures { result ≡ denied_in number transcript.now }
{
    let mut count = 0usize;
    for at in 0..transcript.len() {
        if denial_number(transcript.answer(at)) == number {
            count += 1;
        }
    }
    count
}

/// How many lines of all transcripts were.
fn denied(number: u32, transcripts: &[PlacedTranscript]) -> u128
    ensures { result ≡ denied number transcripts.now }
{
    let mut count = 0;
    for transcript in transcripts {
        count += denied_in(number, transcript) as u128;
    }
    count
}

fn put_denial<W: Write>(out: &mut W, count: u128, words: &[u8]) -> Written
    ensures { Writes (W.contents out.old) (W.contents out.new) result (denial_line count words.now) }
{
    if count == 0 {
        return Ok(());
    }
    let pieces = [
        Piece::Text(b"quotafs: "),
        Piece::RightNumber(count, 0),
        Piece::Text(b" "),
        Piece::Text(words),
        Piece::Text(b"\n"),
    ];
    put_pieces(out, &pieces)
}

/// Writes how many lines there are of these kinds, a line for each that there is.
fn put_kinds<W: Write>(
    out: &mut W,
    transcripts: &[PlacedTranscript],
    kinds: &[(u32, &[u8])],
) -> Written
    ensures { Writes (W.contents out.old) (W.contents out.new) result
        (kinds_text transcripts.now (map (λ kind. (kind.0, kind.1.now)) kinds.now)) }
{
    for (number, words) in kinds {
        put_denial(out, denied(*number, transcripts), words)?;
    }
    Ok(())
}

/// Writes how many lines were refused or failed, a line for each kind that there is, in the order of their numbers. It
/// takes no memory. After an Err some beginning of the text went out.
pub fn put_denials<W: Write>(out: &mut W, transcripts: &[PlacedTranscript]) -> Written
    ensures { Writes (W.contents out.old) (W.contents out.new) result (denials_text transcripts.now) }
{
    let kinds: [(u32, &[u8]); 17] = [
        (1, b"refused EINVAL"),
        (2, b"refused ENAMETOOLONG"),
        (3, b"refused ENOENT"),
        (4, b"refused ENOTDIR"),
        (5, b"refused EEXIST"),
        (6, b"refused ENOSPC"),
        (7, b"refused EDQUOT"),
        (8, b"refused EISDIR"),
        (9, b"refused EACCES"),
        (10, b"refused EFBIG"),
        (11, b"refused EPERM"),
        (12, b"refused EMLINK"),
        (13, b"refused ENOTEMPTY"),
        (14, b"refused EBUSY"),
        (15, b"refused ESRCH"),
        (20, b"failed JournalFull"),
        (21, b"failed OutOfMemory"),
    ];
    put_kinds(out, transcripts, &kinds)
}

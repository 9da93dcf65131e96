//! A line of a script, as a call of a session.
ghost use Rattle.std.specs.Prelude.{◌≡◌, ◌≢◌, ◌++◌, Some, IfOk, codes};
ghost use Rattle.qtext_files.specs.Scripts.{script_of};
ghost use Rattle.qtext_read.specs.Replies.{reply_text};
ghost use Rattle.qsession.specs.Holdings.{holding_of};
ghost use Rattle.qsession.specs.Tellings.{IsPutIn, UnlessMemory};
ghost use Rattle.qsession_text.specs.Lines.{MakesCall, ReadsOne, only_line, session_answer};

use crate::buffer::put_text;
use qplain::{Line, NoMemory, Reply};
use qsession::{Fault, Kept};
use qtext::{ReadFault, TextKind, TextLine};
use qtext_files::{next_line, read_line};
use qtext_read::Paths;
use qtext_write::put_reply;
use std::alloc::Global;

/// As many words as most lines have.
const FEW_WORDS: usize = 8;

/// As many bytes as most replies have.
const FEW_BYTES: usize = 128;

/// What is wrong with a text that says no line, or more than one.
const NOT_ONE: ReadFault = ReadFault::Fault(TextKind::WordCount);

/// The one line that the text says.
fn line_in(alloc: Global, text: &[u8]) -> Result<Line, ReadFault>
    ensures { ReadsOne result (script_of text.now) }
{
    if text.is_empty() {
        return Err(NOT_ONE);
    }
    let mut room = Vec::with_capacity(alloc, FEW_WORDS)?;
    let line = next_line(&mut room, text)?;
    if !line.after.is_empty() {
        return Err(NOT_ONE);
    }
    // A line is large, and a `match` or a `?` would move it once more.
    read_line(alloc, &mut Paths::apart(), 1, &line, &room)
}

/// A reply as a line of text.
fn reply_line(alloc: Global, reply: &Reply) -> Result<Vec<u8>, NoMemory>
    ensures { IfOk result (λ out. out.items ≡ reply_text reply.now ++ codes "\n") }
{
    let mut out = Vec::with_capacity(alloc, FEW_BYTES)?;
    let mut line = TextLine::new();
    match put_reply(&mut out, &mut line, reply) {
        Ok(()) => Ok(out),
        Err(_) => Err(NoMemory),
    }
}

/// Makes the call of a line, `MOMENT CALLER CALL` with a line end, once its reply stands as a line at the front of the
/// buffer; how long that is, is told as soon as it is known.
///
/// Returns 0; 65 for want of memory, 69 where the buffer has too few bytes, 70 where the text is no such line, or more
/// than one, 71 where the journal is full: then no call was made.
pub fn answer_line(
    alloc: Global,
    kept: &mut Kept,
    text: &[u8],
    buffer: &mut [u8],
    len: &mut usize,
) -> u32
    ensures line { UnlessMemory (Some (holding_of kept.old)) result
        (IsPutIn (session_answer (Some (holding_of kept.old)) (script_of text.now)) buffer.new len.new result) }
    ensures made { result ≡ 0 → MakesCall (Some (holding_of kept.old)) (Some (holding_of kept.new))
        (only_line (script_of text.now)) }
    ensures fault { result ≢ 0 → holding_of kept.new ≡ holding_of kept.old }
{
    let line = match line_in(alloc, text) {
        Ok(line) => line,
        Err(ReadFault::Memory) => return Fault::Memory.code(),
        Err(ReadFault::Fault(_)) => return Fault::Line.code(),
    };
    let reply = match kept.ready(&line.cred, line.moment, &line.call) {
        Ok(reply) => reply,
        Err(fault) => return fault.code(),
    };
    let Ok(out) = reply_line(alloc, &reply) else {
        return Fault::Memory.code();
    };
    let told = put_text(&out, buffer, len);
    if told != 0 {
        return told;
    }
    kept.commit();
    told
}

//! What a client is told, a line for each of its own.
ghost use Rattle.std.specs.Prelude.{◌≡◌};
ghost use Rattle.qtext.specs.Written.{Writes};
ghost use Rattle.qtext_client.specs.Responses.{has_failed, bad_line_words, response_text};

use qrun_client::Answer;
use qtext::{Piece, TextKind, TextLine, Written, put, put_pieces};
use qtext_write::put_answer;
use std::io::Write;

/// What is wrong with a line that is none of a script, or none of its client's.
#[derive(Clone, Copy, Debug, PartialEq, Eq)]
pub enum BadLine {
    /// It does not say what a script's line says.
    Text(TextKind),
    /// It is longer than the bound.
    Length,
    /// It is of another caller than the client is bound to.
    OtherCaller,
    /// A path of it has more components than the client may ask for.
    Depth,
    /// The client has used up what it may take of the service.
    Share,
}

/// What a client is told of one line.
#[derive(Debug, PartialEq, Eq, Drop)]
pub enum Response {
    /// What a store answered to it.
    Answer(Answer),
    /// It is no line of a script, or none of its client's.
    Fault(BadLine),
    /// Memory was wanting for it, whatever it says.
    NoMemory,
}

impl Response {
    /// Whether the line has failed: it is in no journal, though it may be a line of a script.
    pub fn has_failed(&self) -> bool
        ensures { result ≡ has_failed self.now }
    {
        match self {
            Response::Answer(answer) => answer.is_err(),
            Response::Fault(_) => false,
            Response::NoMemory => true,
        }
    }
}

impl BadLine {
    /// The words that name it.
    fn words(self) -> &'static str
        ensures { result.now ≡ bad_line_words self }
    {
        match self {
            BadLine::Text(kind) => kind.words(),
            BadLine::Length => "line length",
            BadLine::OtherCaller => "caller",
            BadLine::Depth => "path depth",
            BadLine::Share => "share",
        }
    }
}

fn put_fault<W: Write>(out: &mut W, fault: BadLine) -> Written
    ensures { Writes (W.contents out.old) (W.contents out.new) result (response_text (Response.Fault fault)) }
{
    let pieces = [
        Piece::Text(b"- fault "),
        Piece::Text(fault.words().as_bytes()),
        Piece::Text(b"\n"),
    ];
    put_pieces(out, &pieces)
}

/// Writes the line that a client is told. An answer is put together in place of what the text line holds. After an Err
/// some beginning of it went out.
pub fn put_response<W: Write>(out: &mut W, line: &mut TextLine, response: &Response) -> Written
    ensures { Writes (W.contents out.old) (W.contents out.new) result (response_text response.now) }
{
    match response {
        Response::Answer(answer) => put_answer(out, line, answer),
        Response::Fault(fault) => put_fault(out, *fault),
        Response::NoMemory => put(out, b"- failed OutOfMemory\n"),
    }
}

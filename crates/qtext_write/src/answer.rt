//! Answers as text.
ghost use Rattle.std.specs.Prelude.{◌≡◌};
ghost use Rattle.qtext.specs.Written.{Writes};
ghost use Rattle.qtext_write.specs.Answers.{answer_text, call_fault_text};

use crate::reply_text::put_reply;
use qplain::{CallFault, Receipt};
use qtext::{Piece, TextLine, Written, put_pieces};
use std::io::Write;

fn fault_word(fault: CallFault) -> &'static [u8]
    ensures { result.now ≡ call_fault_text fault }
{
    match fault {
        CallFault::JournalFull => b"JournalFull",
        CallFault::OutOfMemory => b"OutOfMemory",
    }
}

fn put_receipt<W: Write>(out: &mut W, line: &mut TextLine, receipt: &Receipt) -> Written
    ensures { Writes (W.contents out.old) (W.contents out.new) result (answer_text (Ok receipt.now)) }
{
    line.clear();
    line.number(receipt.place);
    line.byte(b' ');
    put_reply(out, line, &receipt.reply)
}

/// Writes the line of a call that was not journaled. It is out of line, so that an answer has no room for pieces.
#[inline(never)]
fn put_failed<W: Write>(out: &mut W, fault: CallFault) -> Written
    ensures { Writes (W.contents out.old) (W.contents out.new) result (answer_text (Err fault)) }
{
    let pieces = [
        Piece::Text(b"- failed "),
        Piece::Text(fault_word(fault)),
        Piece::Text(b"\n"),
    ];
    put_pieces(out, &pieces)
}

/// Writes the line of an answer, which is put together in place of what the text line holds. After an Err some
/// beginning of it went out.
pub fn put_answer<W: Write>(
    out: &mut W,
    line: &mut TextLine,
    answer: &Result<Receipt, CallFault>,
) -> Written
    ensures { Writes (W.contents out.old) (W.contents out.new) result (answer_text answer.now) }
{
    match answer {
        Ok(receipt) => put_receipt(out, line, receipt),
        Err(fault) => put_failed(out, *fault),
    }
}

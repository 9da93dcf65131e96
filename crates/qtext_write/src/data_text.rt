//! The bytes of a write as text.
ghost use Rattle.std.specs.Prelude.{◌≡◌, ◌≤◌, ◌<◌, ◌++◌, length, replicate, IfOk};
ghost use Rattle.hex.specs.Hex.{encode_lower};
ghost use Rattle.qblocks.specs.Input.{input_bytes};
ghost use Rattle.qplain.specs.Ranges.{AreBytes};
ghost use Rattle.qtext.specs.Pieces.{data_text};
ghost use Rattle.qtext.specs.Written.{Passes};

use qblocks::Input;
use qtext::{HEAD_ROOM, LINE_ROOM, TextLine, Written, put};
use std::io::Write;

/// How many equal bytes' digits are written at once.
const FILL_PIECE: usize = 256;

/// Puts the digits of N equal bytes after what is there. All but the last are written where there are more than
/// a piece.
fn put_equal<W: Write>(out: &mut W, line: &mut TextLine, count: u64, byte: u8) -> Written
    requires { length line.old ≤ HEAD_ROOM }
    ensures passes { Passes (W.contents out.old) (W.contents out.new) result
        (line.old ++ encode_lower (replicate count byte)) line.new }
    ensures room { IfOk result (λ _. length line.new < LINE_ROOM) }
{
    let piece = [byte; FILL_PIECE];
    let mut left = count;
    while left > FILL_PIECE as u64 {
        line.digits(&piece);
        line.put_all(out)?;
        left -= FILL_PIECE as u64;
    }
    line.digits(&piece[..left as usize]);
    Ok(())
}

/// Puts bytes that are laid out after what is there. What there is no room for is written.
fn put_laid_out<W: Write>(out: &mut W, line: &mut TextLine, bytes: &[u8]) -> Written
    requires { length line.old ≤ HEAD_ROOM }
    ensures passes { Passes (W.contents out.old) (W.contents out.new) result
        (line.old ++ data_text bytes.now) line.new }
    ensures room { IfOk result (λ _. length line.new < LINE_ROOM) }
    ensures held { AreBytes bytes.now }
{
    line.put_data(out, bytes)
}

/// Puts the bytes of a write after what is there. What there is no room for is written.
pub(crate) fn put_input<W: Write>(out: &mut W, line: &mut TextLine, bytes: Input<'_>) -> Written
    requires { length line.old ≤ HEAD_ROOM }
    ensures passes { Passes (W.contents out.old) (W.contents out.new) result
        (line.old ++ data_text (input_bytes bytes.entry)) line.new }
    ensures room { IfOk result (λ _. length line.new < LINE_ROOM) }
    ensures held { AreBytes (input_bytes bytes.entry) }
{
    match bytes {
        Input::Bytes(bytes) => put_laid_out(out, line, bytes),
        Input::Fill { count: 0, .. } => line.put_data(out, &[]),
        Input::Fill { count, byte } => put_equal(out, line, count, byte),
    }
}

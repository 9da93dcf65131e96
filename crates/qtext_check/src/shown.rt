//! Parts of lines that are shown, whatever bytes they have.
ghost use Rattle.std.specs.Prelude.{◌<◌, ◌++◌, codes, length, take};
ghost use Rattle.std.specs.List.{flat_map};
ghost use Rattle.qtext.specs.Written.{Writes};
ghost use Rattle.qtext_check.specs.Shown.{escaped_byte, shown_byte, shown_word};

use crate::place::is_text;
use qtext::{Piece, Written, put, put_pieces};
use std::io::Write;

/// Of a word so many bytes are shown at most.
const WORD: usize = 60;

/// Of a line so many bytes are shown at most.
const LINE: usize = 100;

/// Writes a byte, and where it is no text a question mark.
fn put_shown_byte<W: Write>(out: &mut W, byte: u8) -> Written
    ensures { Writes (W.contents out.old) (W.contents out.new) result (shown_byte byte) }
{
    if is_text(byte) {
        put(out, &[byte])
    } else {
        put(out, b"?")
    }
}

/// Writes bytes, each that is no text as a question mark.
fn put_shown<W: Write>(out: &mut W, bytes: &[u8]) -> Written
    ensures { Writes (W.contents out.old) (W.contents out.new) result (flat_map shown_byte bytes.now) }
{
    for byte in bytes {
        put_shown_byte(out, *byte)?;
    }
    Ok(())
}

/// Writes 60 bytes of a word and two dots.
#[tactic(auto, using(qtext::proofs::Fronts::front_of_first, qtext::proofs::Fronts::writes_then))]
fn put_beginning<W: Write>(out: &mut W, word: &[u8]) -> Written
    requires { WORD < length word.now }
    ensures { Writes (W.contents out.old) (W.contents out.new) result
        (flat_map shown_byte (take WORD word.now) ++ codes "..") }
{
    put_shown(out, word.split_at(WORD).0)?;
    put(out, b"..")
}

/// Writes a word, or of a long one 60 bytes and two dots; each byte that is no text as a question mark.
pub fn put_word<W: Write>(out: &mut W, word: &[u8]) -> Written
    ensures { Writes (W.contents out.old) (W.contents out.new) result (shown_word word.now) }
{
    if word.len() > WORD {
        put_beginning(out, word)
    } else {
        put_shown(out, word)
    }
}

fn put_caret<W: Write>(out: &mut W, before: usize) -> Written {
    for _ in 0..before {
        put(out, b" ")?;
    }
    put(out, b"^\n")
}

/// Writes a line, or of a long one a part, and below it a caret behind so many bytes of it.
pub(crate) fn put_pointed<W: Write>(out: &mut W, bytes: &[u8], before: usize) -> Written {
    let from = before.saturating_sub(LINE / 2).min(bytes.len());
    let to = from.saturating_add(LINE).min(bytes.len());
    put_shown(out, &bytes[from..to])?;
    put(out, b"\n")?;
    put_caret(out, before.saturating_sub(from))
}

/// Writes a name with its control bytes escaped as TOML does, so that a fault stays one line.
pub fn put_name<W: Write>(out: &mut W, name: &[u8]) -> Written
    ensures { Writes (W.contents out.old) (W.contents out.new) result (flat_map escaped_byte name.now) }
{
    for byte in name {
        put_name_byte(out, *byte)?;
    }
    Ok(())
}

fn put_name_byte<W: Write>(out: &mut W, byte: u8) -> Written
    ensures { Writes (W.contents out.old) (W.contents out.new) result (escaped_byte byte) }
{
    match byte {
        0x08 => put(out, b"\\b"),
        b'\t' => put(out, b"\\t"),
        b'\n' => put(out, b"\\n"),
        0x0c => put(out, b"\\f"),
        b'\r' => put(out, b"\\r"),
        0..0x20 | 0x7f => put_pieces(out, &[Piece::Text(b"\\u00"), Piece::Byte(byte)]),
        _ => put(out, &[byte]),
    }
}

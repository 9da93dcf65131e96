//! Values of JSON, for any writer.
ghost use Rattle.std.specs.Prelude.{◌≡◌, ◌<◌, ◌++◌, codes, replicate};
ghost use Rattle.std.specs.List.{flat_map};
ghost use Rattle.hex.specs.Hex.{encode_lower};
ghost use Rattle.std.specs.Char.{digit_char};
ghost use Rattle.json.specs.Print.{escape, escape_byte, escape_letter, quoted};
ghost use Rattle.qblocks.specs.Input.{input_bytes};
ghost use Rattle.qtext.specs.Written.{Writes};
ghost use Rattle.qtext_rows.specs.Values.{digits_text, flag_text, or_null, value_text};

use qblocks::Input;
use qtext::{Piece, TextLine, Written, put, put_pieces};
use std::io::Write;

/// A value that has no members.
#[derive(Clone, Copy)]
pub(crate) enum Value<'a> {
    Null,
    Flag(bool),
    Number(u64),
    Wide(u128),
    /// A text, which is escaped.
    Text(&'a [u8]),
    /// Bytes, as a text of hexadecimal digits.
    Digits(Input<'a>),
}

/// A number, or null where there is none.
pub(crate) fn or_null<'a>(number: Option<u64>) -> Value<'a>
    ensures { value_text result ≡ or_null number }
{
    match number {
        Some(number) => Value::Number(number),
        None => Value::Null,
    }
}

/// An id, or null where there is none.
pub(crate) fn id_or_null<'a>(id: Option<u32>) -> Value<'a>
    ensures { value_text result ≡ or_null id }
{
    match id {
        Some(id) => Value::Number(id as u64),
        None => Value::Null,
    }
}

/// The letter of a byte's short escape, or 0 where it has none.
fn letter(byte: u8) -> u8
    ensures { result ≡ escape_letter byte }
{
    match byte {
        b'"' | b'\\' => byte,
        0x08 => b'b',
        0x0c => b'f',
        b'\n' => b'n',
        b'\r' => b'r',
        b'\t' => b't',
        _ => 0,
    }
}

fn hex_digit(digit: u8) -> u8
    requires { digit < 16 }
    ensures { result ≡ digit_char digit }
{
    if digit < 10 {
        b'0' + digit
    } else {
        b'a' - 10 + digit
    }
}

/// Writes what stands in a text for a byte.
#[tactic(auto, using(crate::proofs::Escapes::short, crate::proofs::Escapes::plain, crate::proofs::Escapes::long))]
fn put_escaped<W: Write>(out: &mut W, byte: u8) -> Written
    ensures { Writes (W.contents out.old) (W.contents out.new) result (escape_byte byte) }
{
    let letter = letter(byte);
    if letter > 0 {
        return put(out, &[b'\\', letter]);
    }
    if byte >= 0x20 {
        return put(out, &[byte]);
    }
    let (high, low) = (hex_digit(byte / 16), hex_digit(byte % 16));
    put(out, &[b'\\', b'u', b'0', b'0', high, low])
}

fn put_all_escaped<W: Write>(out: &mut W, text: &[u8]) -> Written
    ensures { Writes (W.contents out.old) (W.contents out.new) result (flat_map escape_byte text.now) }
{
    for byte in text {
        put_escaped(out, *byte)?;
    }
    Ok(())
}

/// Writes what stands in a text, and its end.
#[tactic(auto, using(qtext::proofs::Fronts::front_of_first, qtext::proofs::Fronts::writes_then))]
fn put_inside<W: Write>(out: &mut W, text: &[u8]) -> Written
    ensures { Writes (W.contents out.old) (W.contents out.new) result (escape text.now ++ codes "\"") }
{
    put_all_escaped(out, text)?;
    put(out, b"\"")
}

/// Writes a text, with what has to be escaped.
#[tactic(auto, using(qtext::proofs::Fronts::front_of_first, qtext::proofs::Fronts::writes_then))]
fn put_quoted<W: Write>(out: &mut W, text: &[u8]) -> Written
    ensures { Writes (W.contents out.old) (W.contents out.new) result (quoted text.now) }
{
    put(out, b"\"")?;
    put_inside(out, text)
}

/// Writes the digits of N equal bytes.
fn put_equal<W: Write>(out: &mut W, count: u64, byte: u8) -> Written
    ensures { Writes (W.contents out.old) (W.contents out.new) result (encode_lower (replicate count byte)) }
{
    for _ in 0..count {
        put_pieces(out, &[Piece::Byte(byte)])?;
    }
    Ok(())
}

/// Writes the digits of bytes that are laid out.
fn put_laid_out<W: Write>(out: &mut W, bytes: &[u8]) -> Written
    ensures { Writes (W.contents out.old) (W.contents out.new) result (encode_lower bytes.now) }
{
    if bytes.is_empty() {
        return Ok(());
    }
    let mut line = TextLine::new();
    line.put_data(out, bytes)?;
    put(out, line.as_slice())
}

/// Writes the digits of bytes.
fn put_digits<W: Write>(out: &mut W, bytes: Input<'_>) -> Written
    ensures { Writes (W.contents out.old) (W.contents out.new) result (encode_lower (input_bytes bytes.entry)) }
{
    match bytes {
        Input::Bytes(bytes) => put_laid_out(out, bytes),
        Input::Fill { count, byte } => put_equal(out, count, byte),
    }
}

/// Writes the digits of bytes, and the end of their text.
#[tactic(auto, using(qtext::proofs::Fronts::front_of_first, qtext::proofs::Fronts::writes_then))]
fn put_ended<W: Write>(out: &mut W, bytes: Input<'_>) -> Written
    ensures { Writes (W.contents out.old) (W.contents out.new) result
        (encode_lower (input_bytes bytes.entry) ++ codes "\"") }
{
    put_digits(out, bytes)?;
    put(out, b"\"")
}

/// Writes bytes as a text of hexadecimal digits.
#[tactic(auto, using(qtext::proofs::Fronts::front_of_first, qtext::proofs::Fronts::writes_then))]
fn put_digits_text<W: Write>(out: &mut W, bytes: Input<'_>) -> Written
    ensures { Writes (W.contents out.old) (W.contents out.new) result (digits_text (input_bytes bytes.entry)) }
{
    put(out, b"\"")?;
    put_ended(out, bytes)
}

fn put_flag<W: Write>(out: &mut W, holds: bool) -> Written
    ensures { Writes (W.contents out.old) (W.contents out.new) result (flag_text holds) }
{
    if holds {
        put(out, b"true")
    } else {
        put(out, b"false")
    }
}

/// Writes a value.
pub(crate) fn put_value<W: Write>(out: &mut W, value: &Value<'_>) -> Written
    ensures { Writes (W.contents out.old) (W.contents out.new) result (value_text value.now) }
{
    match value {
        Value::Null => put(out, b"null"),
        Value::Flag(holds) => put_flag(out, *holds),
        Value::Number(n) => put_pieces(out, &[Piece::Number(*n)]),
        Value::Wide(n) => put_pieces(out, &[Piece::RightNumber(*n, 0)]),
        Value::Text(text) => put_quoted(out, text),
        Value::Digits(bytes) => put_digits_text(out, *bytes),
    }
}

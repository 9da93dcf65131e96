//! Pieces of text for any writer.
ghost use Rattle.std.specs.Prelude.{◌≡◌, ◌-◌, ◌∷◌, [], decimal};
ghost use Rattle.hex.specs.Hex.{encode_lower};
ghost use Rattle.qtext.specs.Written.{Writes};
ghost use Rattle.qtext.specs.Pieces.{characters_in, spaces, left_in, right_in, piece_text, pieces_text};

use crate::{Piece, RefusedWrite};
use itoa::Buffer;
use std::io::Write;

/// What comes of writing a text.
pub type Written = Result<(), RefusedWrite>;

/// Writes all of the text. A writer that takes nothing refuses. After an Err some beginning of the text went out.
pub fn put<W: Write>(out: &mut W, text: &[u8]) -> Written
    ensures { Writes (W.contents out.old) (W.contents out.new) result text.now }
{
    let mut rest = text;
    while !rest.is_empty() {
        match out.write(rest) {
            Ok(0) => return Err(RefusedWrite),
            Ok(n) => rest = rest.split_at(n).1,
            Err(_) => return Err(RefusedWrite),
        }
    }
    Ok(())
}

/// What is written at once of many spaces.
const SPACES: &[u8] = b"                ";

fn put_spaces<W: Write>(out: &mut W, count: usize) -> Written
    ensures { Writes (W.contents out.old) (W.contents out.new) result (spaces count) }
{
    let mut rest = count;
    while rest > SPACES.len() {
        put(out, SPACES)?;
        rest -= SPACES.len();
    }
    put(out, SPACES.split_at(rest).0)
}

fn put_number<W: Write>(out: &mut W, n: u64) -> Written
    ensures { Writes (W.contents out.old) (W.contents out.new) result (decimal n) }
{
    let mut buffer = Buffer::new();
    put(out, buffer.format(n).as_bytes())
}

/// Writes the two digits of a byte at once.
fn put_byte<W: Write>(out: &mut W, byte: u8) -> Written
    ensures { Writes (W.contents out.old) (W.contents out.new) result (encode_lower (byte ∷ [])) }
{
    let mut digits = [0u8; 2];
    hex::encode_to_slice(&[byte], &mut digits).unwrap();
    put(out, &digits)
}

/// How many characters of UTF-8 the text has.
fn characters(text: &[u8]) -> usize
    ensures { result ≡ characters_in text.now }
{
    text.iter()
        .filter(|byte| **byte < 0x80 || 0xc0 <= **byte)
        .count()
}

#[tactic(auto, using(crate::proofs::Fronts::front_of_first, crate::proofs::Fronts::writes_then))]
fn put_left<W: Write>(out: &mut W, text: &[u8], places: usize) -> Written
    ensures { Writes (W.contents out.old) (W.contents out.new) result (left_in places text.now) }
{
    put(out, text)?;
    put_spaces(out, places.saturating_sub(characters(text)))
}

#[tactic(auto, using(crate::proofs::Fronts::front_of_first, crate::proofs::Fronts::writes_then))]
fn put_right<W: Write>(out: &mut W, text: &[u8], places: usize) -> Written
    ensures { Writes (W.contents out.old) (W.contents out.new) result (right_in places text.now) }
{
    put_spaces(out, places.saturating_sub(characters(text)))?;
    put(out, text)
}

fn put_piece<W: Write>(out: &mut W, piece: Piece<'_>) -> Written
    ensures { Writes (W.contents out.old) (W.contents out.new) result (piece_text piece.entry) }
{
    match piece {
        Piece::Text(text) => put(out, text),
        Piece::Number(n) => put_number(out, n),
        Piece::Byte(byte) => put_byte(out, byte),
        Piece::Left(text, places) => put_left(out, text, places),
        Piece::Right(text, places) => put_right(out, text, places),
        Piece::RightNumber(n, places) => {
            let mut buffer = Buffer::new();
            put_right(out, buffer.format(n).as_bytes(), places)
        }
    }
}

/// Writes the pieces one after the other. After an Err some beginning of their text went out.
pub fn put_pieces<W: Write>(out: &mut W, pieces: &[Piece<'_>]) -> Written
    ensures { Writes (W.contents out.old) (W.contents out.new) result (pieces_text pieces.now) }
{
    for piece in pieces {
        put_piece(out, *piece)?;
    }
    Ok(())
}

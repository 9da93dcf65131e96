//! Objects of JSON in parts, for any writer.
ghost use Rattle.std.specs.Prelude.{◌++◌};
ghost use Rattle.qtext.specs.Written.{Writes};
ghost use Rattle.qtext_rows.specs.Values.{key, member, part_text, parts_text, value_text};

use crate::value::{Value, put_value};
use qtext::{Piece, Written, put, put_pieces};
use std::io::Write;

/// A part of an object.
#[derive(Clone, Copy)]
pub(crate) enum Part<'a> {
    /// The front of an object of this type.
    Open(&'a [u8]),
    /// A further member.
    Member(&'a [u8], Value<'a>),
    /// The front of a further member that is an object of this name.
    Nested(&'a [u8], &'a [u8]),
    /// The end of such a member.
    Shut,
    /// The end of an object, and of its line.
    Close,
}

fn put_key<W: Write>(out: &mut W, name: &[u8]) -> Written
    ensures { Writes (W.contents out.old) (W.contents out.new) result (key name.now) }
{
    let pieces = [Piece::Text(b",\""), Piece::Text(name), Piece::Text(b"\":")];
    put_pieces(out, &pieces)
}

#[tactic(auto, using(qtext::proofs::Fronts::front_of_first, qtext::proofs::Fronts::writes_then))]
pub(crate) fn put_member<W: Write>(out: &mut W, name: &[u8], value: &Value<'_>) -> Written
    ensures { Writes (W.contents out.old) (W.contents out.new) result (member name.now (value_text value.now)) }
{
    put_key(out, name)?;
    put_value(out, value)
}

pub(crate) fn put_part<W: Write>(out: &mut W, part: &Part<'_>) -> Written
    ensures { Writes (W.contents out.old) (W.contents out.new) result (part_text part.now) }
{
    match part {
        Part::Open(kind) => put_pieces(
            out,
            &[
                Piece::Text(b"{\"type\":\""),
                Piece::Text(kind),
                Piece::Text(b"\""),
            ],
        ),
        Part::Member(name, value) => put_member(out, name, value),
        Part::Nested(name, of) => put_pieces(
            out,
            &[
                Piece::Text(b",\""),
                Piece::Text(name),
                Piece::Text(b"\":{\"name\":\""),
                Piece::Text(of),
                Piece::Text(b"\""),
            ],
        ),
        Part::Shut => put(out, b"}"),
        Part::Close => put(out, b"}\n"),
    }
}

/// Writes the parts one after the other. After an Err some beginning of their text went out.
pub(crate) fn put_parts<W: Write>(out: &mut W, parts: &[Part<'_>]) -> Written
    ensures { Writes (W.contents out.old) (W.contents out.new) result (parts_text parts.now) }
{
    for part in parts {
        put_part(out, part)?;
    }
    Ok(())
}

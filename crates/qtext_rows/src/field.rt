//! Records of CSV, as the kit's writer writes them.
ghost use Rattle.std.specs.Prelude.{◌≡◌, ◌<◌, ◌∷◌, [], ◌++◌, codes, length, map};
ghost use Rattle.std.specs.List.{flat_map};
ghost use Rattle.csv.specs.Writing.{default_writer, escaped, field_text, needs_byte, needs_quotes, quoted, row_text};
ghost use Rattle.qtext.specs.Written.{Writes};
ghost use Rattle.qtext_rows.specs.Csv.{doubled_byte, next_field};

use qtext::{Written, put};
use std::io::Write;

/// Whether a field with this byte has quotes.
fn is_special(byte: u8) -> bool
    ensures { result ≡ needs_byte default_writer byte }
{
    byte == b',' || byte == b'"' || byte == b'\r' || byte == b'\n'
}

fn needs_quotes(field: &[u8]) -> bool
    ensures { result ≡ needs_quotes default_writer field.now }
{
    field.iter().any(|byte| is_special(*byte))
}

fn put_doubled_byte<W: Write>(out: &mut W, byte: u8) -> Written
    ensures { Writes (W.contents out.old) (W.contents out.new) result (doubled_byte byte) }
{
    if byte == b'"' {
        put(out, b"\"\"")
    } else {
        put(out, &[byte])
    }
}

/// Writes what stands between the quotes of a field.
fn put_doubled<W: Write>(out: &mut W, field: &[u8]) -> Written
    ensures { Writes (W.contents out.old) (W.contents out.new) result (escaped default_writer field.now) }
{
    for byte in field {
        put_doubled_byte(out, *byte)?;
    }
    Ok(())
}

#[tactic(auto, using(qtext::proofs::Fronts::front_of_first, qtext::proofs::Fronts::writes_then))]
fn put_inside<W: Write>(out: &mut W, field: &[u8]) -> Written
    ensures { Writes (W.contents out.old) (W.contents out.new) result
        (escaped default_writer field.now ++ codes "\"") }
{
    put_doubled(out, field)?;
    put(out, b"\"")
}

#[tactic(auto, using(qtext::proofs::Fronts::front_of_first, qtext::proofs::Fronts::writes_then))]
fn put_quoted<W: Write>(out: &mut W, field: &[u8]) -> Written
    ensures { Writes (W.contents out.old) (W.contents out.new) result (quoted default_writer field.now) }
{
    put(out, b"\"")?;
    put_inside(out, field)
}

fn put_field<W: Write>(out: &mut W, field: &[u8]) -> Written
    ensures { Writes (W.contents out.old) (W.contents out.new) result (field_text default_writer field.now) }
{
    if needs_quotes(field) {
        put_quoted(out, field)
    } else {
        put(out, field)
    }
}

/// Writes a field behind another.
#[tactic(auto, using(qtext::proofs::Fronts::front_of_first, qtext::proofs::Fronts::writes_then))]
fn put_next<W: Write>(out: &mut W, field: &[u8]) -> Written
    ensures { Writes (W.contents out.old) (W.contents out.new) result (next_field field.now) }
{
    put(out, b",")?;
    put_field(out, field)
}

fn put_fields<W: Write>(out: &mut W, fields: &[&[u8]]) -> Written
    ensures { Writes (W.contents out.old) (W.contents out.new) result
        (flat_map (λ field. next_field field.now) fields.now) }
{
    for field in fields {
        put_next(out, field)?;
    }
    Ok(())
}

#[tactic(auto, using(qtext::proofs::Fronts::front_of_first, qtext::proofs::Fronts::writes_then))]
fn put_rest<W: Write>(out: &mut W, fields: &[&[u8]]) -> Written
    ensures { Writes (W.contents out.old) (W.contents out.new) result
        (flat_map (λ field. next_field field.now) fields.now ++ codes "\n") }
{
    put_fields(out, fields)?;
    put(out, b"\n")
}

/// Writes a record of at least two fields.
pub(crate) fn put_row<W: Write>(out: &mut W, first: &[u8], fields: &[&[u8]]) -> Written
    requires { 0 < length fields.now }
    ensures { Writes (W.contents out.old) (W.contents out.new) result
        (row_text default_writer (first.now ∷ map (λ field. field.now) fields.now)) }
{
    put_field(out, first)?;
    put_rest(out, fields)
}

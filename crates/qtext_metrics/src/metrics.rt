//! The text for a monitor.
ghost use Rattle.std.specs.Prelude.{◌≡◌, ◌==◌, find, option_map};
ghost use Rattle.std.specs.List.{flat_map};
ghost use Rattle.qplain.specs.Setups.{principals_in};
ghost use Rattle.qtext.specs.Written.{Writes};
ghost use Rattle.qtext.specs.Pieces.{piece_text};
ghost use Rattle.qtext_metrics.specs.Metrics.{family_text, family_head, holder_text, metrics_text, family_row, total_text};

use crate::family::Family;
use qplain::{Board, Principal, Setup};
use qrules::{BoardRow, Kind};
use qtext::{Piece, Written, kind_word, put_pieces};
use std::io::Write;

fn principals_in(setup: &Setup, kind: Kind) -> &[Principal]
    ensures { result.now ≡ principals_in kind setup.now }
{
    match kind {
        Kind::User => setup.users(),
        Kind::Group => setup.groups(),
        Kind::Project => setup.projects(),
    }
}

fn with_id(principals: &[Principal], id: u32) -> Option<&Principal>
    ensures { option_map (λ p. p.now) result ≡ find (λ p. p.id == id) principals.now }
{
    principals.iter().find(|p| p.id == id)
}

/// Whose row it is.
fn holder<'a>(setup: &'a Setup, row: &BoardRow) -> Piece<'a>
    ensures { piece_text result ≡ holder_text setup.now row.now }
{
    match with_id(principals_in(setup, row.kind), row.id) {
        Some(principal) => Piece::Text(principal.name.as_str().as_bytes()),
        None => Piece::Number(row.id as u64),
    }
}

fn put_head<W: Write>(out: &mut W, family: Family) -> Written
    ensures { Writes (W.contents out.old) (W.contents out.new) result (family_head family) }
{
    let name = Piece::Text(family.name());
    put_pieces(
        out,
        &[
            Piece::Text(b"# HELP "),
            name,
            Piece::Text(b" "),
            Piece::Text(family.help()),
            Piece::Text(b"\n# TYPE "),
            name,
            Piece::Text(b" gauge\n"),
        ],
    )
}

fn put_total<W: Write>(out: &mut W, family: Family, value: Option<u64>) -> Written
    ensures { Writes (W.contents out.old) (W.contents out.new) result (total_text family value) }
{
    let Some(value) = value else {
        return Ok(());
    };
    put_pieces(
        out,
        &[
            Piece::Text(family.name()),
            Piece::Text(b" "),
            Piece::Number(value),
            Piece::Text(b"\n"),
        ],
    )
}

/// Writes the sample of a row. No label needs an escape: a name is of `a` to `z`, `0` to `9`, `_` and `-`.
fn put_row<W: Write>(out: &mut W, setup: &Setup, family: Family, row: &BoardRow) -> Written
    ensures { Writes (W.contents out.old) (W.contents out.new) result (family_row setup.now family row.now) }
{
    let Some(value) = family.value(row) else {
        return Ok(());
    };
    put_pieces(
        out,
        &[
            Piece::Text(family.name()),
            Piece::Text(b"{kind=\""),
            Piece::Text(kind_word(row.kind)),
            Piece::Text(b"\",name=\""),
            holder(setup, row),
            Piece::Text(b"\"} "),
            Piece::Number(value),
            Piece::Text(b"\n"),
        ],
    )
}

fn put_rows<W: Write>(out: &mut W, setup: &Setup, family: Family, rows: &[BoardRow]) -> Written
    ensures { Writes (W.contents out.old) (W.contents out.new) result
        (flat_map (family_row setup.now family) rows.now) }
{
    for row in rows {
        put_row(out, setup, family, row)?;
    }
    Ok(())
}

fn put_family<W: Write>(out: &mut W, setup: &Setup, board: &Board, family: Family) -> Written
    ensures { Writes (W.contents out.old) (W.contents out.new) result (family_text setup.now board.now family) }
{
    put_head(out, family)?;
    put_total(out, family, family.total(setup, board))?;
    put_rows(out, setup, family, board.rows.as_slice())
}

fn put_families<W: Write>(out: &mut W, setup: &Setup, board: &Board, families: &[Family]) -> Written
    ensures { Writes (W.contents out.old) (W.contents out.new) result
        (flat_map (family_text setup.now board.now) families.now) }
{
    for family in families {
        put_family(out, setup, board, *family)?;
    }
    Ok(())
}

/// Writes the board, of a store of this setup, in the text format of Prometheus: for each family of samples what they
/// are, that each is a gauge, and the samples, those of rows with the labels `kind` and `name`. It takes no memory.
///
/// Families stand in a fixed order, and rows as the board has them. Blocks are of 4096 bytes, their limits in KiB, and
/// ends of graces are moments, in seconds. A limit is written where there is one, and an end where a grace runs. A row
/// of nobody in the setup has its id for a name. After an Err some beginning of the text went out.
pub fn put_metrics<W: Write>(out: &mut W, setup: &Setup, board: &Board) -> Written
    ensures { Writes (W.contents out.old) (W.contents out.new) result (metrics_text setup.now board.now) }
{
    put_families(out, setup, board, &Family::all())
}

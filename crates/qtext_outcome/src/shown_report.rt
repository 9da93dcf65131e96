//! The report as a view shows it.
ghost use Rattle.std.specs.Prelude.{◌≡◌, ◌<◌, ◌*◌, ◌^◌, ◌++◌, codes};
ghost use Rattle.qrules.specs.Sort.{is_over};
ghost use Rattle.qtext.specs.Pieces.{piece_text};
ghost use Rattle.qtext.specs.Written.{Writes};
ghost use Rattle.qaudit.specs.Reports.{column, flag_text, grace_text};
ghost use Rattle.qtext_outcome.specs.Reports.{heads_text, human_row, inode_columns, is_over_any, row_start};
ghost use Rattle.qtext_outcome.specs.Reports.{shown_report, shown_row, shown_rows, space_columns};

use crate::Shown;
use crate::units::{count, space};
use qaudit::put_report;
use qrules::{KIB_PER_BLOCK, RecordRow};
use qtext::{Piece, TextLine, View, Written, kind_word, put, put_pieces};
use std::io::Write;
use std::slice;

/// The heads of a report in KiB.
const HEADS: &[u8] = b"\
kind    name             bi        KiB       soft       hard      grace\
\x20    inodes       soft       hard      grace\n";

/// The heads of a report in larger units.
const HUMAN_HEADS: &[u8] = b"\
kind    name             bi      space       soft       hard      grace\
\x20    inodes       soft       hard      grace\n";

fn put_heads<W: Write>(out: &mut W, view: View) -> Written
    ensures { Writes (W.contents out.old) (W.contents out.new) result (heads_text view) }
{
    if view.human_readable {
        put(out, HUMAN_HEADS)
    } else {
        put(out, HEADS)
    }
}

/// Whether an amount is over a limit, of which 0 is none.
pub fn is_over(amount: u128, limit: u64) -> bool
    ensures { result ≡ is_over amount limit }
{
    limit != 0 && amount > limit as u128
}

/// What a record uses of blocks, in KiB.
pub fn kib_of(row: &RecordRow) -> u128
    ensures value { result ≡ KIB_PER_BLOCK * row.now.blocks }
    ensures small { result < 2 ^ 66 }
{
    KIB_PER_BLOCK as u128 * row.blocks as u128
}

/// Whether use is over a limit, soft or hard, of blocks or of inodes.
pub fn is_over_any(row: &RecordRow) -> bool
    ensures { result ≡ is_over_any row.now }
{
    let (kib, inodes) = (kib_of(row), row.inodes as u128);
    let limits = &row.limits;
    is_over(kib, limits.block_soft)
        || is_over(kib, limits.block_hard)
        || is_over(inodes, limits.inode_soft)
        || is_over(inodes, limits.inode_hard)
}

fn flag<'a>(is_over: bool) -> Piece<'a>
    ensures { piece_text result ≡ flag_text is_over }
{
    if is_over {
        Piece::Text(b"+")
    } else {
        Piece::Text(b"-")
    }
}

/// What is left of a grace.
fn grace(moment: u64, end: Option<u64>) -> TextLine
    ensures { result ≡ grace_text moment end }
{
    let mut text = TextLine::new();
    match end {
        None => text.text(b"-"),
        Some(end) if moment < end => text.number(end - moment),
        Some(_) => text.text(b"none"),
    }
    text
}

fn put_column<W: Write>(out: &mut W, text: &TextLine) -> Written
    ensures { Writes (W.contents out.old) (W.contents out.new) result (column text.now) }
{
    put_pieces(out, &[Piece::Text(b" "), Piece::Right(text.as_slice(), 10)])
}

#[tactic(auto, using(qtext::proofs::Fronts::front_of_first, qtext::proofs::Fronts::writes_then))]
fn put_two<W: Write>(out: &mut W, one: &TextLine, other: &TextLine) -> Written
    ensures { Writes (W.contents out.old) (W.contents out.new) result (column one.now ++ column other.now) }
{
    put_column(out, one)?;
    put_column(out, other)
}

/// Writes the columns of blocks.
#[tactic(auto, using(qtext::proofs::Fronts::front_of_first, qtext::proofs::Fronts::writes_then))]
fn put_space<W: Write>(out: &mut W, row: &RecordRow, moment: u64) -> Written
    ensures { Writes (W.contents out.old) (W.contents out.new) result (space_columns moment row.now) }
{
    let limits = &row.limits;
    put_two(out, &space(kib_of(row)), &space(limits.block_soft as u128))?;
    put_two(
        out,
        &space(limits.block_hard as u128),
        &grace(moment, row.block_end),
    )
}

/// Writes the columns of inodes.
#[tactic(auto, using(qtext::proofs::Fronts::front_of_first, qtext::proofs::Fronts::writes_then))]
fn put_inodes<W: Write>(out: &mut W, row: &RecordRow, moment: u64) -> Written
    ensures { Writes (W.contents out.old) (W.contents out.new) result (inode_columns moment row.now) }
{
    let limits = &row.limits;
    put_two(out, &count(row.inodes), &count(limits.inode_soft))?;
    put_two(
        out,
        &count(limits.inode_hard),
        &grace(moment, row.inode_end),
    )
}

/// Writes the columns of inodes, and the line's end.
#[tactic(auto, using(qtext::proofs::Fronts::front_of_first, qtext::proofs::Fronts::writes_then))]
fn put_last<W: Write>(out: &mut W, row: &RecordRow, moment: u64) -> Written
    ensures { Writes (W.contents out.old) (W.contents out.new) result
        (inode_columns moment row.now ++ codes "\n") }
{
    put_inodes(out, row, moment)?;
    put(out, b"\n")
}

/// Writes all columns of amounts, and the line's end.
#[tactic(auto, using(qtext::proofs::Fronts::front_of_first, qtext::proofs::Fronts::writes_then))]
fn put_amounts<W: Write>(out: &mut W, row: &RecordRow, moment: u64) -> Written
    ensures { Writes (W.contents out.old) (W.contents out.new) result
        (space_columns moment row.now ++ (inode_columns moment row.now ++ codes "\n")) }
{
    put_space(out, row, moment)?;
    put_last(out, row, moment)
}

/// Writes the kind, the name and the flags.
fn put_start<W: Write>(out: &mut W, row: &RecordRow) -> Written
    ensures { Writes (W.contents out.old) (W.contents out.new) result (row_start row.now) }
{
    put_pieces(
        out,
        &[
            Piece::Left(kind_word(row.kind), 7),
            Piece::Text(b" "),
            Piece::Left(row.name.as_str().as_bytes(), 16),
            Piece::Text(b" "),
            flag(is_over(kib_of(row), row.limits.block_soft)),
            flag(is_over(row.inodes as u128, row.limits.inode_soft)),
        ],
    )
}

/// Writes a line with amounts in larger units.
#[tactic(auto, using(qtext::proofs::Fronts::front_of_first, qtext::proofs::Fronts::writes_then))]
fn put_human_row<W: Write>(out: &mut W, row: &RecordRow, moment: u64) -> Written
    ensures { Writes (W.contents out.old) (W.contents out.new) result (human_row moment row.now) }
{
    put_start(out, row)?;
    put_amounts(out, row, moment)
}

/// Writes a record's line, and none of one that is over no limit where only those are asked for.
fn put_shown_row<W: Write>(out: &mut W, shown: Shown, row: &RecordRow) -> Written
    ensures { Writes (W.contents out.old) (W.contents out.new) result (shown_row shown.view shown.moment row.now) }
{
    let Shown { view, moment } = shown;
    if view.over && !is_over_any(row) {
        return Ok(());
    }
    if view.human_readable {
        put_human_row(out, row, moment)
    } else {
        put_report(out, slice::from_ref(row), moment)
    }
}

fn put_rows<W: Write>(out: &mut W, shown: Shown, rows: &[RecordRow]) -> Written
    ensures { Writes (W.contents out.old) (W.contents out.new) result (shown_rows shown.view rows.now shown.moment) }
{
    for row in rows {
        put_shown_row(out, shown, row)?;
    }
    Ok(())
}

/// Writes the report under its heads.
fn put_headed<W: Write>(out: &mut W, shown: Shown, rows: &[RecordRow]) -> Written
    ensures { Writes (W.contents out.old) (W.contents out.new) result
        (heads_text shown.view ++ shown_rows shown.view rows.now shown.moment) }
{
    put_heads(out, shown.view)?;
    put_rows(out, shown, rows)
}

/// Writes the report, under its heads where they are asked for.
pub(crate) fn put_shown_report<W: Write>(out: &mut W, shown: Shown, rows: &[RecordRow]) -> Written
    ensures { Writes (W.contents out.old) (W.contents out.new) result
        (shown_report shown.view rows.now shown.moment) }
{
    if shown.view.heads {
        put_headed(out, shown, rows)
    } else {
        put_rows(out, shown, rows)
    }
}

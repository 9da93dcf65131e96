//! Reports as records of CSV.
ghost use Rattle.std.specs.Prelude.{◌≡◌, ◌++◌, decimal};
ghost use Rattle.std.specs.List.{flat_map, list_any};
ghost use Rattle.csv.specs.Writing.{default_writer, row_text};
ghost use Rattle.qrules.specs.Kinds.{is_same_kind};
ghost use Rattle.qrules.specs.declared.kind.Kind.TheVariants.{Group, Project};
ghost use Rattle.qtext.specs.Written.{Writes};
ghost use Rattle.qtext_rows.specs.Csv.{csv_fields, csv_heads, csv_kind, csv_record, csv_text, grace_left, kind_head};
ghost use Rattle.qtext_rows.specs.Csv.{status_text};

use crate::field::put_row;
use itoa::Buffer;
use qrules::{Kind, RecordRow};
use qtext::{TextLine, Written};
use qtext_outcome::{Shown, is_over, is_over_any, kib_of};
use std::io::Write;

fn kind_head(kind: Kind) -> &'static [u8]
    ensures { result.now ≡ kind_head kind }
{
    match kind {
        Kind::User => b"User",
        Kind::Group => b"Group",
        Kind::Project => b"Project",
    }
}

fn put_heads<W: Write>(out: &mut W, kind: Kind) -> Written
    ensures { Writes (W.contents out.old) (W.contents out.new) result (row_text default_writer (csv_heads kind)) }
{
    let heads: [&[u8]; 10] = [
        b"BlockStatus",
        b"FileStatus",
        b"BlockUsed",
        b"BlockSoftLimit",
        b"BlockHardLimit",
        b"BlockGrace",
        b"FileUsed",
        b"FileSoftLimit",
        b"FileHardLimit",
        b"FileGrace",
    ];
    put_row(out, kind_head(kind), &heads)
}

/// How a use stands to its limits.
fn status(used: u128, soft: u64, hard: u64) -> &'static [u8]
    ensures { result.now ≡ status_text used soft hard }
{
    if is_over(used, hard) {
        b"hard"
    } else if is_over(used, soft) {
        b"soft"
    } else {
        b"ok"
    }
}

/// A number in decimal digits.
fn number(n: u64) -> TextLine
    ensures { result ≡ decimal n }
{
    let mut text = TextLine::new();
    text.number(n);
    text
}

/// What is left of a grace.
fn left(moment: u64, end: Option<u64>) -> TextLine
    ensures { result ≡ grace_left moment end }
{
    match end {
        None => TextLine::new(),
        Some(end) if moment < end => number(end - moment),
        Some(_) => {
            let mut text = TextLine::new();
            text.text(b"none");
            text
        }
    }
}

fn put_record<W: Write>(out: &mut W, row: &RecordRow, moment: u64) -> Written
    ensures { Writes (W.contents out.old) (W.contents out.new) result
        (row_text default_writer (csv_fields moment row.now)) }
{
    let (kib, limits) = (kib_of(row), &row.limits);
    let mut used = Buffer::new();
    put_row(
        out,
        row.name.as_str().as_bytes(),
        &[
            status(kib, limits.block_soft, limits.block_hard),
            status(row.inodes as u128, limits.inode_soft, limits.inode_hard),
            used.format(kib).as_bytes(),
            number(limits.block_soft).as_slice(),
            number(limits.block_hard).as_slice(),
            left(moment, row.block_end).as_slice(),
            number(row.inodes).as_slice(),
            number(limits.inode_soft).as_slice(),
            number(limits.inode_hard).as_slice(),
            left(moment, row.inode_end).as_slice(),
        ],
    )
}

/// Writes a record of this kind, and nothing of one of another, nor of one that is not asked for.
fn put_shown<W: Write>(out: &mut W, shown: Shown, kind: Kind, row: &RecordRow) -> Written
    ensures { Writes (W.contents out.old) (W.contents out.new) result
        (csv_record shown.view kind shown.moment row.now) }
{
    if !row.kind.is_same(kind) || shown.view.over && !is_over_any(row) {
        return Ok(());
    }
    put_record(out, row, shown.moment)
}

fn put_records<W: Write>(out: &mut W, shown: Shown, kind: Kind, rows: &[RecordRow]) -> Written
    ensures { Writes (W.contents out.old) (W.contents out.new) result
        (flat_map (csv_record shown.view kind shown.moment) rows.now) }
{
    for row in rows {
        put_shown(out, shown, kind, row)?;
    }
    Ok(())
}

#[tactic(auto, using(qtext::proofs::Fronts::front_of_first, qtext::proofs::Fronts::writes_then))]
fn put_headed<W: Write>(out: &mut W, shown: Shown, kind: Kind, rows: &[RecordRow]) -> Written
    ensures { Writes (W.contents out.old) (W.contents out.new) result (row_text default_writer (csv_heads kind)
        ++ flat_map (csv_record shown.view kind shown.moment) rows.now) }
{
    put_heads(out, kind)?;
    put_records(out, shown, kind, rows)
}

/// Whether any record is of this kind.
fn has_kind(rows: &[RecordRow], kind: Kind) -> bool
    ensures { result ≡ list_any (λ r. is_same_kind r.kind kind) rows.now }
{
    rows.iter().any(|row| row.kind.is_same(kind))
}

fn put_kind<W: Write>(out: &mut W, shown: Shown, kind: Kind, rows: &[RecordRow]) -> Written
    ensures { Writes (W.contents out.old) (W.contents out.new) result
        (csv_kind shown.view kind rows.now shown.moment) }
{
    if has_kind(rows, kind) {
        put_headed(out, shown, kind, rows)
    } else {
        Ok(())
    }
}

#[tactic(auto, using(qtext::proofs::Fronts::front_of_first, qtext::proofs::Fronts::writes_then))]
fn put_last_kinds<W: Write>(out: &mut W, shown: Shown, rows: &[RecordRow]) -> Written
    ensures { Writes (W.contents out.old) (W.contents out.new) result
        (csv_kind shown.view Group rows.now shown.moment ++ csv_kind shown.view Project rows.now shown.moment) }
{
    put_kind(out, shown, Kind::Group, rows)?;
    put_kind(out, shown, Kind::Project, rows)
}

/// Writes the report as records of CSV, kind by kind under the heads of its columns.
#[tactic(auto, using(qtext::proofs::Fronts::front_of_first, qtext::proofs::Fronts::writes_then))]
pub(crate) fn put_csv<W: Write>(out: &mut W, shown: Shown, rows: &[RecordRow]) -> Written
    ensures { Writes (W.contents out.old) (W.contents out.new) result
        (csv_text shown.view rows.now shown.moment) }
{
    put_kind(out, shown, Kind::User, rows)?;
    put_last_kinds(out, shown, rows)
}

//! The quota report as text.
ghost use Rattle.std.specs.Prelude.{◌≡◌, decimal};
ghost use Rattle.qrules.specs.Sort.{is_over};
ghost use Rattle.qtext.specs.Written.{Writes};
ghost use Rattle.qtext.specs.Pieces.{piece_text, right_in};
ghost use Rattle.qaudit.specs.Reports.{flag_text, grace_text, report_text, row_text};

use qrules::{KIB_PER_BLOCK, RecordRow};
use qtext::{Piece, RefusedWrite, Written, kind_word, put_pieces};
use std::io::Write;

/// Why a report was not written whole.
#[derive(Clone, Copy, Debug, PartialEq, Eq)]
pub enum ReportFault {
    /// The writer refused. Some beginning of the text went out.
    Write,
}

impl ReportFault {
    /// The number under which it is reported.
    pub fn number(self) -> u32
        ensures { result ≡ 61 }
    {
        match self {
            ReportFault::Write => 61,
        }
    }
}

fn flag<'a>(amount: u128, limit: u64) -> Piece<'a>
    ensures { piece_text result ≡ flag_text (is_over amount limit) }
{
    if limit != 0 && amount > limit as u128 {
        Piece::Text(b"+")
    } else {
        Piece::Text(b"-")
    }
}

fn grace<'a>(moment: u64, end: Option<u64>) -> Piece<'a>
    ensures { piece_text result ≡ right_in 10 (grace_text moment end) }
{
    match end {
        None => Piece::Right(b"-", 10),
        Some(end) if moment < end => Piece::RightNumber((end - moment) as u128, 10),
        Some(_) => Piece::Right(b"none", 10),
    }
}

fn number<'a>(n: u64) -> Piece<'a>
    ensures { piece_text result ≡ right_in 10 (decimal n) }
{
    Piece::RightNumber(n as u128, 10)
}

fn put_row<W: Write>(out: &mut W, row: &RecordRow, moment: u64) -> Written
    ensures { Writes (W.contents out.old) (W.contents out.new) result (row_text moment row.now) }
{
    let kib = KIB_PER_BLOCK as u128 * row.blocks as u128;
    let limits = &row.limits;
    let space = Piece::Text(b" ");
    put_pieces(
        out,
        &[
            Piece::Left(kind_word(row.kind), 7),
            space,
            Piece::Left(row.name.as_str().as_bytes(), 16),
            space,
            flag(kib, limits.block_soft),
            flag(row.inodes as u128, limits.inode_soft),
            space,
            Piece::RightNumber(kib, 10),
            space,
            number(limits.block_soft),
            space,
            number(limits.block_hard),
            space,
            grace(moment, row.block_end),
            space,
            number(row.inodes),
            space,
            number(limits.inode_soft),
            space,
            number(limits.inode_hard),
            space,
            grace(moment, row.inode_end),
            Piece::Text(b"\n"),
        ],
    )
}

/// Writes the report: one line a quota record, in the order of the rows, as of the moment. It takes no memory.
///
/// Use and limits of blocks are in KiB, graces in seconds (profile, after repquota(8)). A place of a column is one
/// character. After an Err some beginning of the text went out.
pub fn put_report<W: Write>(out: &mut W, rows: &[RecordRow], moment: u64) -> Written
    ensures { Writes (W.contents out.old) (W.contents out.new) result (report_text rows.now moment) }
{
    for row in rows {
        put_row(out, row, moment)?;
    }
    Ok(())
}

/// The report, of which a refusal has its number.
pub fn report<W: Write>(rows: &[RecordRow], moment: u64, out: &mut W) -> Result<(), ReportFault>
    ensures { Writes (W.contents out.old) (W.contents out.new) result (report_text rows.now moment) }
{
    match put_report(out, rows, moment) {
        Ok(()) => Ok(()),
        Err(RefusedWrite) => Err(ReportFault::Write),
    }
}

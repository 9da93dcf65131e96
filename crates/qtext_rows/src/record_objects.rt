//! The report as objects.
ghost use Rattle.std.specs.Prelude.{◌≡◌};
ghost use Rattle.qtext.specs.Written.{Writes};
ghost use Rattle.qtext_rows.specs.Records.{grace_left, record_object, record_objects, shown_object};
ghost use Rattle.qtext_rows.specs.Values.{value_text};

use crate::part::{Part, put_parts};
use crate::value::Value;
use qrules::RecordRow;
use qtext::{Written, kind_word};
use qtext_outcome::{Shown, is_over, is_over_any, kib_of};
use std::io::Write;

/// What is left of a grace.
fn grace<'a>(moment: u64, end: Option<u64>) -> Value<'a>
    ensures { value_text result ≡ grace_left moment end }
{
    match end {
        Some(end) => Value::Number(end.saturating_sub(moment)),
        None => Value::Null,
    }
}

fn put_record<W: Write>(out: &mut W, row: &RecordRow, moment: u64) -> Written
    ensures { Writes (W.contents out.old) (W.contents out.new) result (record_object moment row.now) }
{
    let limits = &row.limits;
    let parts = [
        Part::Open(b"record"),
        Part::Member(b"kind", Value::Text(kind_word(row.kind))),
        Part::Member(b"name", Value::Text(row.name.as_str().as_bytes())),
        Part::Member(b"id", Value::Number(row.id as u64)),
        Part::Member(
            b"block_over",
            Value::Flag(is_over(kib_of(row), limits.block_soft)),
        ),
        Part::Member(
            b"inode_over",
            Value::Flag(is_over(row.inodes as u128, limits.inode_soft)),
        ),
        Part::Member(b"kib", Value::Wide(kib_of(row))),
        Part::Member(b"block_soft", Value::Number(limits.block_soft)),
        Part::Member(b"block_hard", Value::Number(limits.block_hard)),
        Part::Member(b"block_grace", grace(moment, row.block_end)),
        Part::Member(b"inodes", Value::Number(row.inodes)),
        Part::Member(b"inode_soft", Value::Number(limits.inode_soft)),
        Part::Member(b"inode_hard", Value::Number(limits.inode_hard)),
        Part::Member(b"inode_grace", grace(moment, row.inode_end)),
        Part::Close,
    ];
    put_parts(out, &parts)
}

/// Writes a record's object, and none of one that is over no limit where only those are asked for.
fn put_shown<W: Write>(out: &mut W, shown: Shown, row: &RecordRow) -> Written
    ensures { Writes (W.contents out.old) (W.contents out.new) result
        (shown_object shown.view shown.moment row.now) }
{
    if shown.view.over && !is_over_any(row) {
        return Ok(());
    }
    put_record(out, row, shown.moment)
}

/// Writes the objects of the records that are asked for.
pub(crate) fn put_records<W: Write>(out: &mut W, shown: Shown, rows: &[RecordRow]) -> Written
    ensures { Writes (W.contents out.old) (W.contents out.new) result
        (record_objects shown.view rows.now shown.moment) }
{
    for row in rows {
        put_shown(out, shown, row)?;
    }
    Ok(())
}

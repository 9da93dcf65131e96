//! The quota records of a store as lines.
ghost use Rattle.std.specs.Prelude.{◌≡◌, ◌<◌, ◌≤◌, ◌+◌, ◌^◌, ◌∷◌, ◌++◌, decimal, length, IfOk};
ghost use Rattle.std.specs.List.{AllByRecursion, flat_map};
ghost use Rattle.qtext.specs.RuleWords.{kind_text};
ghost use Rattle.qtext.specs.Written.{Passes, Writes};
ghost use Rattle.qtext_read.specs.Replies.{end_text};
ghost use Rattle.qtext_read.specs.Spelling.{limits_words};
ghost use Rattle.qtext_write.specs.Texts.{spaced};
ghost use Rattle.qtext_image_write.specs.Lines.{holder_text, record_text};

use qrules::RecordRow;
use qstore::Store;
use qtext::{RefusedWrite, TextLine, WORD_ROOM, Written, kind_word};
use qtext_write::{CALL_ROOM, put_end, put_limits};
use std::io::Write;

/// `KIND ID NAME`, in place of what the line holds.
fn put_identity<W: Write>(out: &mut W, line: &mut TextLine, row: &RecordRow) -> Written
    ensures passes { Passes (W.contents out.old) (W.contents out.new) result
        (kind_text row.now.kind ++ 32 ∷ decimal row.now.id ++ 32 ∷ row.now.name) line.new }
    ensures short { IfOk result (λ _. length line.new ≤ WORD_ROOM) }
    ensures held { row.now.id < 2 ^ 32 }
{
    line.clear();
    line.text(kind_word(row.kind));
    line.field(row.id as u64);
    line.byte(b' ');
    line.put_word(out, row.name.as_str().as_bytes())
}

/// ` BLOCKS INODES BSOFT BHARD ISOFT IHARD BEND IEND`.
fn put_account(line: &mut TextLine, row: &RecordRow)
    requires { length line.old ≤ WORD_ROOM }
    ensures text { line.new ≡ line.old ++ (32 ∷ decimal row.now.blocks ++ 32 ∷ decimal row.now.inodes
        ++ spaced (limits_words row.now.limits) ++ 32 ∷ end_text row.now.block_end ++ 32 ∷ end_text row.now.inode_end) }
    ensures short { length line.new ≤ CALL_ROOM + 42 }
{
    line.field(row.blocks);
    line.field(row.inodes);
    put_limits(line, &row.limits);
    put_end(line, row.block_end);
    put_end(line, row.inode_end);
}

/// `KIND ID NAME BLOCKS INODES BSOFT BHARD ISOFT IHARD BEND IEND`.
fn put_record<W: Write>(out: &mut W, line: &mut TextLine, row: &RecordRow) -> Written
    ensures writes { Writes (W.contents out.old) (W.contents out.new) result (record_text row.now) }
    ensures held { row.now.id < 2 ^ 32 }
{
    put_identity(out, line, row)?;
    put_account(line, row);
    line.put_end(out)
}

fn put_rows<W: Write>(out: &mut W, line: &mut TextLine, rows: &[RecordRow]) -> Written
    ensures writes { Writes (W.contents out.old) (W.contents out.new) result (flat_map record_text rows.now) }
    ensures held { IfOk result (λ _. AllByRecursion (λ r. r.id < 2 ^ 32) rows.now) }
{
    for row in rows {
        put_record(out, line, row)?;
    }
    Ok(())
}

/// A line for each record: users by id, then groups, then projects. An Err may be that memory was wanted.
pub(crate) fn put_records<W: Write>(out: &mut W, line: &mut TextLine, store: &Store) -> Written
    ensures writes { Writes (W.contents out.old) (W.contents out.new) result
        (flat_map (holder_text store.now.state) store.now.state.holders) }
    ensures held { IfOk result (λ _. AllByRecursion (λ h. h.id < 2 ^ 32) store.now.state.holders) }
{
    match store.record_rows() {
        Ok(rows) => put_rows(out, line, &rows),
        Err(_) => Err(RefusedWrite),
    }
}

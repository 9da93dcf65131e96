//! Audits as text.
ghost use Rattle.std.specs.Prelude.{◌≡◌, length};
ghost use Rattle.std.specs.List.{flat_map};
ghost use Rattle.qtext.specs.Written.{Writes};
ghost use Rattle.qaudit.specs.Audits.{audit_head, audit_text, difference_text, link_text, owner_text, use_text};

use crate::{CountRow, Difference, LinkRow};
use qrules::{Kind, RecordRow};
use qtext::{Piece, Written, kind_word, put_pieces};
use std::io::Write;

fn put_use<W: Write>(out: &mut W, kind: Kind, row: &RecordRow, counted: &CountRow) -> Written
    ensures { Writes (W.contents out.old) (W.contents out.new) result (use_text kind row.now counted.now) }
{
    let pieces = [
        Piece::Text(kind_word(kind)),
        Piece::Text(b" "),
        Piece::Number(row.id as u64),
        Piece::Text(b" blocks "),
        Piece::Number(row.blocks),
        Piece::Text(b" "),
        Piece::Number(counted.blocks),
        Piece::Text(b" inodes "),
        Piece::Number(row.inodes),
        Piece::Text(b" "),
        Piece::Number(counted.inodes),
        Piece::Text(b"\n"),
    ];
    put_pieces(out, &pieces)
}

fn put_owner<W: Write>(out: &mut W, kind: Kind, counted: &CountRow) -> Written
    ensures { Writes (W.contents out.old) (W.contents out.new) result (owner_text kind counted.now) }
{
    let pieces = [
        Piece::Text(kind_word(kind)),
        Piece::Text(b" "),
        Piece::Number(counted.id as u64),
        Piece::Text(b" no record blocks "),
        Piece::Number(counted.blocks),
        Piece::Text(b" inodes "),
        Piece::Number(counted.inodes),
        Piece::Text(b"\n"),
    ];
    put_pieces(out, &pieces)
}

fn put_link<W: Write>(out: &mut W, link: &LinkRow) -> Written
    ensures { Writes (W.contents out.old) (W.contents out.new) result (link_text link.now) }
{
    let pieces = [
        Piece::Text(b"inode "),
        Piece::Number(link.ino),
        Piece::Text(b" links "),
        Piece::Number(link.recorded),
        Piece::Text(b" "),
        Piece::Number(link.counted),
        Piece::Text(b"\n"),
    ];
    put_pieces(out, &pieces)
}

fn put_difference<W: Write>(out: &mut W, difference: &Difference) -> Written
    ensures { Writes (W.contents out.old) (W.contents out.new) result (difference_text difference.now) }
{
    match difference {
        Difference::Uses { kind, row, counted } => put_use(out, *kind, row, counted),
        Difference::NoRow { kind, counted } => put_owner(out, *kind, counted),
        Difference::Links(link) => put_link(out, link),
    }
}

fn put_differences<W: Write>(out: &mut W, differences: &[Difference]) -> Written
    ensures { Writes (W.contents out.old) (W.contents out.new) result (flat_map difference_text differences.now) }
{
    for difference in differences {
        put_difference(out, difference)?;
    }
    Ok(())
}

fn put_head<W: Write>(out: &mut W, count: u64) -> Written
    ensures { Writes (W.contents out.old) (W.contents out.new) result (audit_head count) }
{
    if count == 0 {
        return put_pieces(out, &[Piece::Text(b"audit ok\n")]);
    }
    let pieces = [
        Piece::Text(b"audit "),
        Piece::Number(count),
        Piece::Text(b"\n"),
    ];
    put_pieces(out, &pieces)
}

/// Writes what an audit found: that all is well, or how many differences there are, and a line for each. It takes no
/// memory.
///
/// Blocks are of 4096 bytes. After an Err some beginning of the text went out.
#[tactic(auto, using(qtext::proofs::Fronts::front_of_first, qtext::proofs::Fronts::writes_then))]
pub fn put_audit<W: Write>(out: &mut W, differences: &[Difference]) -> Written
    ensures { Writes (W.contents out.old) (W.contents out.new) result (audit_text differences.now) }
{
    put_head(out, differences.len() as u64)?;
    put_differences(out, differences)
}

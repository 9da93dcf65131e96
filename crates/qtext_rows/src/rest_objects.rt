//! Looks at the boards, totals, tallies and audits as objects.
ghost use Rattle.std.specs.Prelude.{◌++◌, Ok, Err, length};
ghost use Rattle.std.specs.List.{flat_map};
ghost use Rattle.qtext.specs.Written.{Writes};
ghost use Rattle.qtext_rows.specs.Rest.{audit_objects, audit_start, difference_object, link_object, look_object};
ghost use Rattle.qtext_rows.specs.Rest.{moment_object, rest_objects, tally_object, totals_object, use_object};

use crate::part::{Part, put_parts};
use crate::value::{Value, or_null};
use qaudit::{CountRow, Difference, LinkRow};
use qplain::{Board, LookFault, Tallies};
use qrules::Kind;
use qrun_replay::Outcome;
use qtext::{Written, kind_word};
use qtext_outcome::look_fault_word;
use std::io::Write;

fn put_board<W: Write>(out: &mut W, board: &Board) -> Written
    ensures { Writes (W.contents out.old) (W.contents out.new) result (look_object (Ok board.now)) }
{
    let parts = [
        Part::Open(b"board"),
        Part::Member(b"version", Value::Number(board.version)),
        Part::Member(b"blocks", Value::Number(board.blocks)),
        Part::Member(b"inodes", Value::Number(board.inodes)),
        Part::Close,
    ];
    put_parts(out, &parts)
}

fn put_no_board<W: Write>(out: &mut W, fault: LookFault) -> Written
    ensures { Writes (W.contents out.old) (W.contents out.new) result (look_object (Err fault)) }
{
    let parts = [
        Part::Open(b"board"),
        Part::Member(b"version", Value::Null),
        Part::Member(b"error", Value::Text(look_fault_word(fault))),
        Part::Close,
    ];
    put_parts(out, &parts)
}

fn put_look<W: Write>(out: &mut W, look: &Result<Board, LookFault>) -> Written
    ensures { Writes (W.contents out.old) (W.contents out.new) result (look_object look.now) }
{
    match look {
        Ok(board) => put_board(out, board),
        Err(fault) => put_no_board(out, *fault),
    }
}

/// Writes what each look was given.
pub(crate) fn put_looks<W: Write>(out: &mut W, looks: &[Result<Board, LookFault>]) -> Written
    ensures { Writes (W.contents out.old) (W.contents out.new) result (flat_map look_object looks.now) }
{
    for look in looks {
        put_look(out, look)?;
    }
    Ok(())
}

/// Writes the moment of a report.
pub(crate) fn put_moment<W: Write>(out: &mut W, moment: u64) -> Written
    ensures { Writes (W.contents out.old) (W.contents out.new) result (moment_object moment) }
{
    let parts = [
        Part::Open(b"quota"),
        Part::Member(b"at", Value::Number(moment)),
        Part::Close,
    ];
    put_parts(out, &parts)
}

fn put_totals<W: Write>(out: &mut W, outcome: &Outcome) -> Written
    ensures { Writes (W.contents out.old) (W.contents out.new) result (totals_object outcome.now) }
{
    let parts = [
        Part::Open(b"totals"),
        Part::Member(b"blocks", Value::Number(outcome.store.blocks())),
        Part::Member(b"blocks_bound", Value::Number(outcome.setup.blocks())),
        Part::Member(b"inodes", Value::Number(outcome.store.inodes())),
        Part::Member(b"inodes_bound", Value::Number(outcome.setup.inodes())),
        Part::Close,
    ];
    put_parts(out, &parts)
}

fn put_tally<W: Write>(out: &mut W, tallies: Tallies) -> Written
    ensures { Writes (W.contents out.old) (W.contents out.new) result (tally_object tallies) }
{
    let parts = [
        Part::Open(b"tally"),
        Part::Member(b"blocks_charged", Value::Number(tallies.blocks_charged)),
        Part::Member(b"blocks_released", Value::Number(tallies.blocks_released)),
        Part::Member(b"inodes_charged", Value::Number(tallies.inodes_charged)),
        Part::Member(b"inodes_released", Value::Number(tallies.inodes_released)),
        Part::Member(b"calls", Value::Number(tallies.calls)),
        Part::Close,
    ];
    put_parts(out, &parts)
}

/// Writes what an owner uses by its record, where it has one, and what was counted.
fn put_use<W: Write>(
    out: &mut W,
    kind: Kind,
    id: u32,
    blocks: Option<u64>,
    inodes: Option<u64>,
    counted: &CountRow,
) -> Written
    ensures { Writes (W.contents out.old) (W.contents out.new) result
        (use_object kind id blocks inodes counted.now) }
{
    let parts = [
        Part::Open(b"difference"),
        Part::Member(b"kind", Value::Text(kind_word(kind))),
        Part::Member(b"id", Value::Number(id as u64)),
        Part::Member(b"blocks", or_null(blocks)),
        Part::Member(b"blocks_counted", Value::Number(counted.blocks)),
        Part::Member(b"inodes", or_null(inodes)),
        Part::Member(b"inodes_counted", Value::Number(counted.inodes)),
        Part::Close,
    ];
    put_parts(out, &parts)
}

fn put_link<W: Write>(out: &mut W, link: &LinkRow) -> Written
    ensures { Writes (W.contents out.old) (W.contents out.new) result (link_object link.now) }
{
    let parts = [
        Part::Open(b"difference"),
        Part::Member(b"inode", Value::Number(link.ino)),
        Part::Member(b"links", Value::Number(link.recorded)),
        Part::Member(b"links_counted", Value::Number(link.counted)),
        Part::Close,
    ];
    put_parts(out, &parts)
}

fn put_difference<W: Write>(out: &mut W, difference: &Difference) -> Written
    ensures { Writes (W.contents out.old) (W.contents out.new) result (difference_object difference.now) }
{
    match difference {
        Difference::Uses { kind, row, counted } => {
            let (blocks, inodes) = (Some(row.blocks), Some(row.inodes));
            put_use(out, *kind, row.id, blocks, inodes, counted)
        }
        Difference::NoRow { kind, counted } => put_use(out, *kind, counted.id, None, None, counted),
        Difference::Links(link) => put_link(out, link),
    }
}

fn put_differences<W: Write>(out: &mut W, differences: &[Difference]) -> Written
    ensures { Writes (W.contents out.old) (W.contents out.new) result (flat_map difference_object differences.now) }
{
    for difference in differences {
        put_difference(out, difference)?;
    }
    Ok(())
}

fn put_audit_start<W: Write>(out: &mut W, count: u64) -> Written
    ensures { Writes (W.contents out.old) (W.contents out.new) result (audit_start count) }
{
    let parts = [
        Part::Open(b"audit"),
        Part::Member(b"differences", Value::Number(count)),
        Part::Close,
    ];
    put_parts(out, &parts)
}

#[tactic(auto, using(qtext::proofs::Fronts::front_of_first, qtext::proofs::Fronts::writes_then))]
fn put_audit<W: Write>(out: &mut W, differences: &[Difference]) -> Written
    ensures { Writes (W.contents out.old) (W.contents out.new) result (audit_objects differences.now) }
{
    put_audit_start(out, differences.len() as u64)?;
    put_differences(out, differences)
}

#[tactic(auto, using(qtext::proofs::Fronts::front_of_first, qtext::proofs::Fronts::writes_then))]
fn put_ledger<W: Write>(out: &mut W, outcome: &Outcome) -> Written
    ensures { Writes (W.contents out.old) (W.contents out.new) result
        (tally_object outcome.now.tallies ++ audit_objects outcome.now.differences) }
{
    put_tally(out, outcome.tallies)?;
    put_audit(out, outcome.differences.as_slice())
}

/// Writes what stands below the records: the totals, the tallies of the journal, and what an audit of the store found.
#[tactic(auto, using(qtext::proofs::Fronts::front_of_first, qtext::proofs::Fronts::writes_then))]
pub(crate) fn put_rest<W: Write>(out: &mut W, outcome: &Outcome) -> Written
    ensures { Writes (W.contents out.old) (W.contents out.new) result (rest_objects outcome.now) }
{
    put_totals(out, outcome)?;
    put_ledger(out, outcome)
}

//! Answers as members of an object.
ghost use Rattle.std.specs.Prelude.{◌≡◌, Ok, Err, codes, decimal};
ghost use Rattle.qtext.specs.Written.{Writes};
ghost use Rattle.qtext_write.specs.Answers.{call_fault_text};
ghost use Rattle.qtext_rows.specs.Replies.{answer_members, bytes_members, done_members};
ghost use Rattle.qtext_rows.specs.Replies.{quota_members, refused_members, reply_members, stat_members};
ghost use Rattle.qtext_rows.specs.Values.{member};
ghost use Rattle.qplain.specs.declared.refusal.Refusal.TheVariants.{EDQUOT};

use crate::part::{Part, put_parts};
use crate::value::{Value, or_null};
use qblocks::Input;
use qplain::{CallFault, Change, Quota, Refusal, Reply, Stat};
use qrules::{Kind, Over};
use qtext::{Written, kind_word, over_word};
use qtext_read::refusal_name;
use std::io::Write;

fn put_done<W: Write>(out: &mut W, number: u64, change: &Change) -> Written
    ensures { Writes (W.contents out.old) (W.contents out.new) result (done_members number change.now) }
{
    let parts = [
        Part::Member(b"reply", Value::Text(b"done")),
        Part::Member(b"inode", Value::Number(number)),
        Part::Member(b"blocks_charged", Value::Number(change.blocks_charged)),
        Part::Member(b"blocks_released", Value::Number(change.blocks_released)),
        Part::Member(b"inodes_charged", Value::Number(change.inodes_charged)),
        Part::Member(b"inodes_released", Value::Number(change.inodes_released)),
        Part::Close,
    ];
    put_parts(out, &parts)
}

fn put_bytes<W: Write>(out: &mut W, bytes: &[u8]) -> Written
    ensures { Writes (W.contents out.old) (W.contents out.new) result (bytes_members bytes.now) }
{
    let parts = [
        Part::Member(b"reply", Value::Text(b"bytes")),
        Part::Member(b"data", Value::Digits(Input::Bytes(bytes))),
        Part::Close,
    ];
    put_parts(out, &parts)
}

fn put_stat<W: Write>(out: &mut W, stat: &Stat) -> Written
    ensures { Writes (W.contents out.old) (W.contents out.new) result (stat_members stat.now) }
{
    let parts = [
        Part::Member(b"reply", Value::Text(b"stat")),
        Part::Member(b"inode", Value::Number(stat.ino)),
        Part::Member(b"directory", Value::Flag(stat.dir)),
        Part::Member(b"uid", Value::Number(stat.uid as u64)),
        Part::Member(b"gid", Value::Number(stat.gid as u64)),
        Part::Member(b"size", Value::Number(stat.size)),
        Part::Member(b"blocks", Value::Number(stat.blocks)),
        Part::Member(b"links", Value::Number(stat.links)),
        Part::Close,
    ];
    put_parts(out, &parts)
}

fn put_quota<W: Write>(out: &mut W, quota: &Quota) -> Written
    ensures { Writes (W.contents out.old) (W.contents out.new) result (quota_members quota.now) }
{
    let limits = &quota.limits;
    let parts = [
        Part::Member(b"reply", Value::Text(b"quota")),
        Part::Member(b"blocks", Value::Number(quota.blocks)),
        Part::Member(b"inodes", Value::Number(quota.inodes)),
        Part::Member(b"block_soft", Value::Number(limits.block_soft)),
        Part::Member(b"block_hard", Value::Number(limits.block_hard)),
        Part::Member(b"inode_soft", Value::Number(limits.inode_soft)),
        Part::Member(b"inode_hard", Value::Number(limits.inode_hard)),
        Part::Member(b"block_end", or_null(quota.block_end)),
        Part::Member(b"inode_end", or_null(quota.inode_end)),
        Part::Close,
    ];
    put_parts(out, &parts)
}

fn put_over<W: Write>(out: &mut W, kind: Kind, over: Over) -> Written
    ensures { Writes (W.contents out.old) (W.contents out.new) result (refused_members (EDQUOT kind over)) }
{
    let parts = [
        Part::Member(b"reply", Value::Text(b"refused")),
        Part::Member(b"error", Value::Text(b"EDQUOT")),
        Part::Member(b"kind", Value::Text(kind_word(kind))),
        Part::Member(b"limit", Value::Text(over_word(over))),
        Part::Close,
    ];
    put_parts(out, &parts)
}

fn put_refused<W: Write>(out: &mut W, refusal: Refusal) -> Written
    ensures { Writes (W.contents out.old) (W.contents out.new) result (refused_members refusal) }
{
    if let Refusal::EDQUOT(kind, over) = refusal {
        return put_over(out, kind, over);
    }
    let parts = [
        Part::Member(b"reply", Value::Text(b"refused")),
        Part::Member(b"error", Value::Text(refusal_name(refusal))),
        Part::Close,
    ];
    put_parts(out, &parts)
}

fn put_reply<W: Write>(out: &mut W, reply: &Reply) -> Written
    ensures { Writes (W.contents out.old) (W.contents out.new) result (reply_members reply.now) }
{
    match reply {
        Reply::Done(number, change) => put_done(out, *number, change),
        Reply::Bytes(bytes) => put_bytes(out, bytes.as_slice()),
        Reply::Stat(stat) => put_stat(out, stat),
        Reply::Quota(quota) => put_quota(out, quota),
        Reply::Refused(refusal) => put_refused(out, *refusal),
    }
}

fn put_place<W: Write>(out: &mut W, place: u64) -> Written
    ensures { Writes (W.contents out.old) (W.contents out.new) result (member (codes "place") (decimal place)) }
{
    put_parts(out, &[Part::Member(b"place", Value::Number(place))])
}

fn call_fault_word(fault: CallFault) -> &'static [u8]
    ensures { result.now ≡ call_fault_text fault }
{
    match fault {
        CallFault::JournalFull => b"JournalFull",
        CallFault::OutOfMemory => b"OutOfMemory",
    }
}

/// Writes why a call was not journaled, and the object's end.
pub(crate) fn put_failed<W: Write>(out: &mut W, fault: CallFault) -> Written
    ensures { Writes (W.contents out.old) (W.contents out.new) result (answer_members (Err fault)) }
{
    let parts = [
        Part::Member(b"place", Value::Null),
        Part::Member(b"reply", Value::Text(b"failed")),
        Part::Member(b"error", Value::Text(call_fault_word(fault))),
        Part::Close,
    ];
    put_parts(out, &parts)
}

/// Writes what a journaled call was answered, and the object's end.
#[tactic(auto, using(qtext::proofs::Fronts::front_of_first, qtext::proofs::Fronts::writes_then))]
pub(crate) fn put_receipt<W: Write>(out: &mut W, place: u64, reply: &Reply) -> Written
    ensures { Writes (W.contents out.old) (W.contents out.new) result
        (answer_members (Ok (record { place = place; reply = reply.now }))) }
{
    put_place(out, place)?;
    put_reply(out, reply)
}

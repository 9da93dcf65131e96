//! Replies as text.
ghost use Rattle.std.specs.Prelude.{◌≡◌, ◌≤◌, ◌<◌, ◌+◌, ◌∷◌, ◌++◌, length, codes};
ghost use Rattle.qplain.specs.Ranges.{AreBytes};
ghost use Rattle.qplain.specs.Held.{HasLawfulStat, IsChange, IsEmptyDirectory, IsEnd, IsQuota, IsReply, IsStat};
ghost use Rattle.qtext.specs.Pieces.{data_text};
ghost use Rattle.qtext.specs.Written.{Writes};
ghost use Rattle.qtext_read.specs.Replies.{done_text, end_text, quota_text, refusal_text, reply_text, stat_text};

use qplain::{Change, Quota, Refusal, Reply, Stat};
use qrules::{Kind, Over};
use qtext::{HEAD_ROOM, LINE_ROOM, TextLine, Written, kind_word, over_word};
use qtext_read::refusal_name;
use std::io::Write;

/// How many bytes may stand before a reply.
pub const REPLY_PLACE: usize = 720;

/// Puts a space and a grace end after what is there, or a dash for none.
pub fn put_end(line: &mut TextLine, end: Option<u64>)
    requires { length line.old + 21 ≤ LINE_ROOM }
    ensures text { line.new ≡ line.old ++ 32 ∷ end_text end }
    ensures short { length line.new ≤ length line.old + 21 }
    ensures held { IsEnd end }
{
    match end {
        None => line.text(b" -"),
        Some(end) => line.field(end),
    }
}

fn put_over(line: &mut TextLine, kind: Kind, over: Over)
    requires { length line.old ≤ HEAD_ROOM }
    ensures text { line.new ≡ line.old ++ refusal_text (Refusal.EDQUOT kind over) }
    ensures short { length line.new < LINE_ROOM }
{
    line.text(b"EDQUOT ");
    line.text(kind_word(kind));
    line.text(b" ");
    line.text(over_word(over));
}

fn put_refusal(line: &mut TextLine, refusal: Refusal)
    requires { length line.old ≤ HEAD_ROOM }
    ensures text { line.new ≡ line.old ++ refusal_text refusal }
    ensures short { length line.new < LINE_ROOM }
{
    match refusal {
        Refusal::EDQUOT(kind, over) => put_over(line, kind, over),
        _ => line.text(refusal_name(refusal)),
    }
}

fn put_done(line: &mut TextLine, number: u64, change: &Change)
    requires { length line.old ≤ HEAD_ROOM }
    ensures text { line.new ≡ line.old ++ done_text number change.now }
    ensures short { length line.new < LINE_ROOM }
    ensures held { IsChange change.now }
{
    line.text(b"done");
    line.field(number);
    line.text(b" blocks +");
    line.number(change.blocks_charged);
    line.text(b" -");
    line.number(change.blocks_released);
    line.text(b" inodes +");
    line.number(change.inodes_charged);
    line.text(b" -");
    line.number(change.inodes_released);
}

fn put_stat(line: &mut TextLine, stat: &Stat)
    requires { length line.old ≤ HEAD_ROOM }
    ensures text { line.new ≡ line.old ++ stat_text stat.now }
    ensures short { length line.new < LINE_ROOM }
    ensures held { IsEmptyDirectory stat.now → IsStat stat.now }
{
    let dir: &[u8] = if stat.dir { b" dir" } else { b" file" };
    line.text(b"stat");
    line.field(stat.ino);
    line.text(dir);
    line.field(stat.uid as u64);
    line.field(stat.gid as u64);
    line.field(stat.size);
    line.field(stat.blocks);
    line.field(stat.links);
}

fn put_quota(line: &mut TextLine, quota: &Quota)
    requires { length line.old ≤ HEAD_ROOM }
    ensures text { line.new ≡ line.old ++ quota_text quota.now }
    ensures short { length line.new < LINE_ROOM }
    ensures held { IsQuota quota.now }
{
    line.text(b"quota");
    line.field(quota.blocks);
    line.field(quota.inodes);
    line.field(quota.limits.block_soft);
    line.field(quota.limits.block_hard);
    line.field(quota.limits.inode_soft);
    line.field(quota.limits.inode_hard);
    put_end(line, quota.block_end);
    put_end(line, quota.inode_end);
}

/// Writes what the line holds, the bytes that were read, and a line end.
fn put_bytes<W: Write>(out: &mut W, line: &mut TextLine, bytes: &[u8]) -> Written
    requires { length line.old ≤ REPLY_PLACE }
    ensures writes { Writes (W.contents out.old) (W.contents out.new) result
        (line.old ++ ((codes "bytes " ++ data_text bytes.now) ++ codes "\n")) }
    ensures held { AreBytes bytes.now }
{
    line.text(b"bytes ");
    line.put_data(out, bytes)?;
    line.put_end(out)
}

/// Writes what the line holds, a reply and a line end, by one write where the writer takes all of it and the reply
/// has no more bytes than a piece of data.
pub fn put_reply<W: Write>(out: &mut W, line: &mut TextLine, reply: &Reply) -> Written
    requires { length line.old ≤ REPLY_PLACE }
    ensures writes { Writes (W.contents out.old) (W.contents out.new) result
        (line.old ++ reply_text reply.now ++ codes "\n") }
    ensures held { HasLawfulStat reply.now → IsReply reply.now }
{
    match reply {
        Reply::Done(number, change) => put_done(line, *number, change),
        Reply::Bytes(bytes) => return put_bytes(out, line, bytes.as_slice()),
        Reply::Stat(stat) => put_stat(line, stat),
        Reply::Quota(quota) => put_quota(line, quota),
        Reply::Refused(refusal) => {
            line.text(b"refused ");
            put_refusal(line, *refusal);
        }
    }
    line.put_end(out)
}

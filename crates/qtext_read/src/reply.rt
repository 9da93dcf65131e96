//! Replies read from words.
ghost use Rattle.std.specs.Prelude.{map};
ghost use Rattle.qtext.specs.Gives.{Gives};
ghost use Rattle.qtext_read.specs.RepliesRead.{as_bad_reply, bytes_of, done_of, edquot_of, end_of, keyword, limits_of};
ghost use Rattle.qtext_read.specs.RepliesRead.{quota_of, reply_in, reply_of, rise_of, signed, stat_of, words_of_reply};

use crate::argument::{LimitsWords, kind_of};
use crate::reply_word::{ReplyWord, over_of, refusal_of, reply_word_of, type_of};
use crate::upper_case::has_upper_case;
use qplain::{Change, Edition, Quota, Refusal, Reply, SharedItems, Stat};
use qrules::Limits;
use qtext::{ReadFault, TextKind, data_of, id_of, number};
use std::alloc::Global;

/// A word that stands between others.
#[tactic(auto, unfolding(crate::specs::RepliesRead::keyword))]
fn keyword(wanted: &[u8], word: &[u8]) -> Result<(), ReadFault>
    ensures { Gives result (keyword wanted.now word.now) }
{
    if word == wanted {
        return Ok(());
    }
    Err(ReadFault::Fault(TextKind::BadReply))
}

/// A number after its sign.
#[tactic(auto, unfolding(crate::specs::RepliesRead::signed))]
fn signed(sign: u8, word: &[u8]) -> Result<u64, ReadFault>
    ensures { Gives result (signed sign word.now) }
{
    match word {
        [] => Err(ReadFault::Fault(TextKind::BadReply)),
        [first, digits @ ..] => {
            if *first == sign {
                return number(digits);
            }
            Err(ReadFault::Fault(TextKind::BadReply))
        }
    }
}

/// `blocks +C -R` or `inodes +C -R`.
#[derive(Clone, Copy)]
struct RiseWords<'a> {
    total: &'a [u8],
    up: &'a [u8],
    down: &'a [u8],
}

/// A total, and by how much it rose and fell.
#[tactic(auto, unfolding(crate::specs::RepliesRead::rise_of))]
fn rise_of(wanted: &[u8], words: RiseWords<'_>) -> Result<(u64, u64), ReadFault>
    ensures { Gives result (rise_of wanted.now words.entry.total.now words.entry.up.now words.entry.down.now) }
{
    keyword(wanted, words.total)?;
    let charged = signed(b'+', words.up)?;
    let released = signed(b'-', words.down)?;
    Ok((charged, released))
}

/// `INO blocks +C -R inodes +C -R`.
#[tactic(auto, unfolding(crate::specs::RepliesRead::done_of))]
fn done_of(ino: &[u8], blocks: RiseWords<'_>, inodes: RiseWords<'_>) -> Result<Reply, ReadFault>
    ensures { Gives result (done_of ino.now blocks.entry.total.now blocks.entry.up.now blocks.entry.down.now
        inodes.entry.total.now inodes.entry.up.now inodes.entry.down.now) }
{
    let ino = number(ino)?;
    let blocks = rise_of(b"blocks", blocks)?;
    let inodes = rise_of(b"inodes", inodes)?;
    let change = Change {
        blocks_charged: blocks.0,
        blocks_released: blocks.1,
        inodes_charged: inodes.0,
        inodes_released: inodes.1,
    };
    Ok(Reply::Done(ino, change))
}

/// `INO dir UID GID 0 0 LINKS` or `INO file UID GID SIZE BLOCKS LINKS`.
#[tactic(auto, unfolding(crate::specs::RepliesRead::stat_of))]
fn stat_of(
    ino: &[u8],
    dir: &[u8],
    uid: &[u8],
    gid: &[u8],
    size: &[u8],
    blocks: &[u8],
    links: &[u8],
) -> Result<Reply, ReadFault>
    ensures { Gives result (stat_of ino.now dir.now uid.now gid.now size.now blocks.now links.now) }
{
    let stat = Stat {
        ino: number(ino)?,
        dir: type_of(dir)?,
        uid: id_of(TextKind::BadReply, uid)?,
        gid: id_of(TextKind::BadReply, gid)?,
        size: number(size)?,
        blocks: number(blocks)?,
        links: number(links)?,
    };
    if stat.dir && (stat.size != 0 || stat.blocks != 0) {
        return Err(ReadFault::Fault(TextKind::BadReply));
    }
    Ok(Reply::Stat(stat))
}

/// The limits of `BSOFT BHARD ISOFT IHARD`, or the fault of the first that is no number of 64 bits; of any range.
#[tactic(auto, unfolding(crate::specs::RepliesRead::limits_of))]
pub fn limits_of(words: LimitsWords<'_>) -> Result<Limits, ReadFault>
    ensures { Gives result (limits_of words.entry.block_soft.now words.entry.block_hard.now
        words.entry.inode_soft.now words.entry.inode_hard.now) }
{
    Ok(Limits {
        block_soft: number(words.block_soft)?,
        block_hard: number(words.block_hard)?,
        inode_soft: number(words.inode_soft)?,
        inode_hard: number(words.inode_hard)?,
    })
}

/// `BLOCKS INODES BSOFT BHARD ISOFT IHARD BEND IEND`.
#[tactic(auto, unfolding(crate::specs::RepliesRead::quota_of))]
fn quota_of(
    blocks: &[u8],
    inodes: &[u8],
    limits: LimitsWords<'_>,
    block_end: &[u8],
    inode_end: &[u8],
) -> Result<Reply, ReadFault>
    ensures { Gives result (quota_of blocks.now inodes.now limits.entry.block_soft.now limits.entry.block_hard.now
        limits.entry.inode_soft.now limits.entry.inode_hard.now block_end.now inode_end.now) }
{
    Ok(Reply::Quota(Quota {
        blocks: number(blocks)?,
        inodes: number(inodes)?,
        limits: limits_of(limits)?,
        block_end: end_of(block_end)?,
        inode_end: end_of(inode_end)?,
    }))
}

/// The bytes that were read, in lower case.
#[tactic(auto, unfolding(crate::specs::RepliesRead::bytes_of))]
fn bytes_of(alloc: Global, digits: &[u8]) -> Result<Reply, ReadFault>
    ensures { Gives result (bytes_of digits.now) }
{
    if has_upper_case(digits) {
        return Err(ReadFault::Fault(TextKind::BadReply));
    }
    let bytes = data_of(alloc, digits)?;
    Ok(Reply::Bytes(SharedItems::new(bytes.into_vec())?))
}

/// A grace end, in seconds, or None for a dash, else the fault of what is no number of 64 bits.
#[tactic(auto, unfolding(crate::specs::RepliesRead::end_of))]
pub fn end_of(word: &[u8]) -> Result<Option<u64>, ReadFault>
    ensures { Gives result (end_of word.now) }
{
    if word == b"-".as_slice() {
        return Ok(None);
    }
    let end = number(word)?;
    Ok(Some(end))
}

/// `EDQUOT KIND OVER`.
#[tactic(auto, unfolding(crate::specs::RepliesRead::edquot_of))]
fn edquot_of(edition: Edition, name: &[u8], kind: &[u8], over: &[u8]) -> Result<Reply, ReadFault>
    ensures { Gives result (edquot_of edition name.now kind.now over.now) }
{
    keyword(b"EDQUOT", name)?;
    let kind = kind_of(edition, kind)?;
    let over = over_of(over)?;
    Ok(Reply::Refused(Refusal::EDQUOT(kind, over)))
}

/// The reply of a first word and those after it, of which there are as many as it takes.
#[tactic(auto, unfolding(crate::specs::RepliesRead::reply_of))]
fn reply_of(
    alloc: Global,
    edition: Edition,
    first: ReplyWord,
    words: &[&[u8]],
) -> Result<Reply, ReadFault>
    ensures { Gives result (reply_of edition first (map (λ word. word.now) words.now)) }
{
    match (first, words) {
        (ReplyWord::Done, [ino, blocks, up, down, inodes, inodes_up, inodes_down]) => {
            let blocks = RiseWords {
                total: blocks,
                up,
                down,
            };
            let inodes = RiseWords {
                total: inodes,
                up: inodes_up,
                down: inodes_down,
            };
            done_of(ino, blocks, inodes)
        }
        (ReplyWord::Bytes, [digits]) => bytes_of(alloc, digits),
        (ReplyWord::Stat, [ino, dir, uid, gid, size, blocks, links]) => {
            stat_of(ino, dir, uid, gid, size, blocks, links)
        }
        (
            ReplyWord::Quota,
            [
                blocks,
                inodes,
                block_soft,
                block_hard,
                inode_soft,
                inode_hard,
                block_end,
                inode_end,
            ],
        ) => {
            let limits = LimitsWords {
                block_soft,
                block_hard,
                inode_soft,
                inode_hard,
            };
            quota_of(blocks, inodes, limits, block_end, inode_end)
        }
        (ReplyWord::Refused, [name]) => Ok(Reply::Refused(refusal_of(name)?)),
        (ReplyWord::Refused, [name, kind, over]) => edquot_of(edition, name, kind, over),
        _ => Err(ReadFault::Fault(TextKind::BadReply)),
    }
}

/// The reply that words spell, whatever may be wrong with them.
#[tactic(auto, unfolding(crate::specs::RepliesRead::words_of_reply))]
fn words_of_reply(alloc: Global, edition: Edition, words: &[&[u8]]) -> Result<Reply, ReadFault>
    ensures { Gives result (words_of_reply edition (map (λ word. word.now) words.now)) }
{
    match words {
        [] => Err(ReadFault::Fault(TextKind::BadReply)),
        [first, others @ ..] => {
            let first = reply_word_of(first)?;
            reply_of(alloc, edition, first, others)
        }
    }
}

/// The reply that words spell, in the one spelling that replies have: lower-case data, numbers without leading zeros.
/// In edition 1 it names no project.
///
/// All that may be wrong with them is one fault, BadReply. An Err gives no reply.
pub fn reply_in(alloc: Global, edition: Edition, words: &[&[u8]]) -> Result<Reply, ReadFault>
    ensures { Gives result (reply_in edition (map (λ word. word.now) words.now)) }
{
    match words_of_reply(alloc, edition, words) {
        Err(ReadFault::Fault(_)) => Err(ReadFault::Fault(TextKind::BadReply)),
        read => read,
    }
}

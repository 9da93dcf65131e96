//! The words that replies begin with, and the names of refusals, of limits and of what an inode is.
ghost use Rattle.std.specs.Prelude.{◌≡◌};
ghost use Rattle.qtext.specs.Gives.{Gives};
ghost use Rattle.qtext_read.specs.Replies.{refusal_name};
ghost use Rattle.qtext_read.specs.RepliesRead.{over_of, refusal_of, reply_word_of, type_of};

use qplain::Refusal;
use qrules::Over;
use qtext::{ReadFault, TextKind};

/// The first word of a reply.
#[derive(Clone, Copy, Debug, PartialEq, Eq)]
pub(crate) enum ReplyWord {
    Done,
    Bytes,
    Stat,
    Quota,
    Refused,
}

/// The first word that is spelled so.
#[tactic(auto, unfolding(crate::specs::RepliesRead::reply_word_of))]
pub(crate) fn reply_word_of(word: &[u8]) -> Result<ReplyWord, ReadFault>
    ensures { Gives result (reply_word_of word.now) }
{
    if word == b"done".as_slice() {
        return Ok(ReplyWord::Done);
    }
    if word == b"bytes".as_slice() {
        return Ok(ReplyWord::Bytes);
    }
    if word == b"stat".as_slice() {
        return Ok(ReplyWord::Stat);
    }
    if word == b"quota".as_slice() {
        return Ok(ReplyWord::Quota);
    }
    if word == b"refused".as_slice() {
        return Ok(ReplyWord::Refused);
    }
    Err(ReadFault::Fault(TextKind::BadReply))
}

/// The name of a refusal.
pub fn refusal_name(refusal: Refusal) -> &'static [u8]
    ensures { result.now ≡ refusal_name refusal }
{
    match refusal {
        Refusal::EINVAL => b"EINVAL",
        Refusal::ENAMETOOLONG => b"ENAMETOOLONG",
        Refusal::ENOENT => b"ENOENT",
        Refusal::ENOTDIR => b"ENOTDIR",
        Refusal::EEXIST => b"EEXIST",
        Refusal::ENOSPC => b"ENOSPC",
        Refusal::EDQUOT(..) => b"EDQUOT",
        Refusal::EISDIR => b"EISDIR",
        Refusal::EACCES => b"EACCES",
        Refusal::EFBIG => b"EFBIG",
        Refusal::EPERM => b"EPERM",
        Refusal::EMLINK => b"EMLINK",
        Refusal::ENOTEMPTY => b"ENOTEMPTY",
        Refusal::EBUSY => b"EBUSY",
        Refusal::ESRCH => b"ESRCH",
    }
}

/// The refusal of this name, but for EDQUOT, after which more words stand.
#[tactic(auto, unfolding(crate::specs::RepliesRead::refusal_of))]
pub(crate) fn refusal_of(word: &[u8]) -> Result<Refusal, ReadFault>
    ensures { Gives result (refusal_of word.now) }
{
    if word == b"EINVAL".as_slice() {
        return Ok(Refusal::EINVAL);
    }
    if word == b"ENAMETOOLONG".as_slice() {
        return Ok(Refusal::ENAMETOOLONG);
    }
    if word == b"ENOENT".as_slice() {
        return Ok(Refusal::ENOENT);
    }
    if word == b"ENOTDIR".as_slice() {
        return Ok(Refusal::ENOTDIR);
    }
    if word == b"EEXIST".as_slice() {
        return Ok(Refusal::EEXIST);
    }
    if word == b"ENOSPC".as_slice() {
        return Ok(Refusal::ENOSPC);
    }
    if word == b"EISDIR".as_slice() {
        return Ok(Refusal::EISDIR);
    }
    if word == b"EACCES".as_slice() {
        return Ok(Refusal::EACCES);
    }
    if word == b"EFBIG".as_slice() {
        return Ok(Refusal::EFBIG);
    }
    if word == b"EPERM".as_slice() {
        return Ok(Refusal::EPERM);
    }
    if word == b"EMLINK".as_slice() {
        return Ok(Refusal::EMLINK);
    }
    if word == b"ENOTEMPTY".as_slice() {
        return Ok(Refusal::ENOTEMPTY);
    }
    if word == b"EBUSY".as_slice() {
        return Ok(Refusal::EBUSY);
    }
    if word == b"ESRCH".as_slice() {
        return Ok(Refusal::ESRCH);
    }
    Err(ReadFault::Fault(TextKind::BadReply))
}

/// The limit of this name.
#[tactic(auto, unfolding(crate::specs::RepliesRead::over_of))]
pub(crate) fn over_of(word: &[u8]) -> Result<Over, ReadFault>
    ensures { Gives result (over_of word.now) }
{
    if word == b"inode-hard".as_slice() {
        return Ok(Over::InodeHard);
    }
    if word == b"inode-soft".as_slice() {
        return Ok(Over::InodeSoft);
    }
    if word == b"block-hard".as_slice() {
        return Ok(Over::BlockHard);
    }
    if word == b"block-soft".as_slice() {
        return Ok(Over::BlockSoft);
    }
    Err(ReadFault::Fault(TextKind::BadReply))
}

/// `dir` or `file`.
#[tactic(auto, unfolding(crate::specs::RepliesRead::type_of))]
pub(crate) fn type_of(word: &[u8]) -> Result<bool, ReadFault>
    ensures { Gives result (type_of word.now) }
{
    if word == b"dir".as_slice() {
        return Ok(true);
    }
    if word == b"file".as_slice() {
        return Ok(false);
    }
    Err(ReadFault::Fault(TextKind::BadReply))
}

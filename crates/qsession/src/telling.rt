//! Replies as a caller of another language is told them.
ghost use Rattle.std.specs.Prelude.{◌≡◌, ◌≤◌, ℕ, List, Ok, true, IfOk, take};
ghost use Rattle.qplain.specs.declared.reply.Reply.TheVariants.{Bytes};
ghost use Rattle.qsession.specs.Answers.{tells_done, tells_quota, tells_stat};
ghost use Rattle.qsession.specs.Called.{code_of};
ghost use Rattle.qsession.specs.Codes.{over_code, refusal_code};
ghost use Rattle.qsession.specs.ReadReplies.{answer_with, count_in};
ghost use Rattle.qsession.specs.Replies.{done_in, quota_in, stat_in};

use crate::fault::Fault;
use crate::read_reply::ReadReply;
use crate::replies::{DoneReply, QuotaReply, StatReply};
use qplain::{Refusal, Reply};
use qrules::{Kind, Over};

fn over_code(kind: Kind, over: Over) -> u32
    ensures { result ≡ over_code kind over }
{
    match (kind, over) {
        (Kind::User, Over::InodeHard) => 32,
        (Kind::User, Over::InodeSoft) => 33,
        (Kind::User, Over::BlockHard) => 34,
        (Kind::User, Over::BlockSoft) => 35,
        (Kind::Group, Over::InodeHard) => 36,
        (Kind::Group, Over::InodeSoft) => 37,
        (Kind::Group, Over::BlockHard) => 38,
        (Kind::Group, Over::BlockSoft) => 39,
        (Kind::Project, Over::InodeHard) => 40,
        (Kind::Project, Over::InodeSoft) => 41,
        (Kind::Project, Over::BlockHard) => 42,
        (Kind::Project, Over::BlockSoft) => 43,
    }
}

/// The number of a refusal.
fn refusal_code(refusal: Refusal) -> u32
    ensures { result ≡ refusal_code refusal }
{
    match refusal {
        Refusal::EDQUOT(kind, over) => over_code(kind, over),
        refusal => refusal.number(),
    }
}

/// Tells the answer to a call that changes something.
pub(crate) fn tell_done(answer: Result<Reply, Fault>, done: &mut DoneReply) -> u32
    requires { IfOk answer (λ reply. tells_done reply ≡ true) }
    ensures code { result ≡ code_of answer }
    ensures done { result ≡ 0 → answer ≡ Ok (done_in done.new) }
{
    match answer {
        Ok(Reply::Done(ino, change)) => {
            *done = DoneReply::of(ino, change);
            0
        }
        Ok(Reply::Refused(refusal)) => refusal_code(refusal),
        Ok(_) => unreachable!(),
        Err(fault) => fault.code(),
    }
}

/// Tells the answer to a stat.
pub(crate) fn tell_stat(answer: Result<Reply, Fault>, stat: &mut StatReply) -> u32
    requires { IfOk answer (λ reply. tells_stat reply ≡ true) }
    ensures code { result ≡ code_of answer }
    ensures stat { result ≡ 0 → answer ≡ Ok (stat_in stat.new) }
{
    match answer {
        Ok(Reply::Stat(told)) => {
            *stat = StatReply::of(told);
            0
        }
        Ok(Reply::Refused(refusal)) => refusal_code(refusal),
        Ok(_) => unreachable!(),
        Err(fault) => fault.code(),
    }
}

/// Tells the answer to a question for a quota record.
pub(crate) fn tell_quota(answer: Result<Reply, Fault>, quota: &mut QuotaReply) -> u32
    requires { IfOk answer (λ reply. tells_quota reply ≡ true) }
    ensures code { result ≡ code_of answer }
    ensures quota { result ≡ 0 → answer ≡ Ok (quota_in quota.new) }
{
    match answer {
        Ok(Reply::Quota(told)) => {
            *quota = QuotaReply::of(told);
            0
        }
        Ok(Reply::Refused(refusal)) => refusal_code(refusal),
        Ok(_) => unreachable!(),
        Err(fault) => fault.code(),
    }
}

/// Tells the answer to a read, whose bytes stand at the front of a buffer.
pub(crate) fn tell_read(answer: Result<ReadReply, Fault>, len: &mut usize) -> u32
    ensures code { (buffer : List ℕ) → result ≡ code_of (answer_with buffer answer) }
    ensures bytes { result ≡ 0 → (buffer : List ℕ) → answer_with buffer answer ≡ Ok (Bytes (take len.new buffer)) }
    ensures room { (room : ℕ) → IfOk answer (λ reply. count_in reply ≤ room) → result ≡ 0 → len.new ≤ room }
{
    match answer {
        Ok(ReadReply::Bytes(count)) => {
            *len = count;
            0
        }
        Ok(ReadReply::Refused(refusal)) => refusal_code(refusal),
        Err(fault) => fault.code(),
    }
}

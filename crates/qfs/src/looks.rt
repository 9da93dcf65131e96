//! Calls that only look.
#![tactic(auto, using(qsession::proofs::Calling::told_of_paths))]

ghost use Rattle.std.specs.Prelude.{◌≡◌, ◌<◌, ◌≤◌, length, take};
ghost use Rattle.qplain.specs.declared.call.Call.TheVariants.{Read, Stat as AskStat, Quota as AskQuota};
ghost use Rattle.qplain.specs.declared.reply.Reply.TheVariants.{Bytes};
ghost use Rattle.qsession.specs.Called.{IsCalled, IsReplyTo, IsToldNoKind};
ghost use Rattle.qsession.specs.Holdings.{held_in};
ghost use Rattle.qsession.specs.Replies.{quota_in, stat_in};
ghost use Rattle.qsession.specs.Requests.{kind_in, line_by};

use qsession::{Caller, Context, PathText, QuotaReply, ReadFrom, Session, StatReply, kind_of};
use std::alloc::Global;

/// Reads as many bytes from the offset on as the buffer has, up to the end of the file.
#[unsafe(no_mangle)]
pub extern "C" fn qfs_read(
    alloc: Global,
    session: &mut Session,
    caller: &Caller,
    moment: u64,
    path: &[u8],
    off: u64,
    buffer: &mut [u8],
    len: &mut usize,
) -> u32
    ensures called { IsCalled (held_in session.old.slot.kept) (held_in session.new.slot.kept)
        caller.now moment (Read path.now off (length buffer.old)) result }
    ensures bytes { result ≡ 0 → IsReplyTo (held_in session.old.slot.kept)
        (line_by caller.now moment (Read path.now off (length buffer.old))) (Bytes (take len.new buffer.new)) }
    ensures room { result ≡ 0 → len.new ≤ length buffer.old }
{
    let path = match PathText::new(path) {
        Ok(path) => path,
        Err(fault) => return fault.code(),
    };
    let from = ReadFrom { path, off };
    session.read(alloc, Context { caller, moment }, from, buffer, len)
}

/// Asks for an inode's numbers.
#[unsafe(no_mangle)]
pub extern "C" fn qfs_stat(
    alloc: Global,
    session: &mut Session,
    caller: &Caller,
    moment: u64,
    path: &[u8],
    stat: &mut StatReply,
) -> u32
    ensures called { IsCalled (held_in session.old.slot.kept) (held_in session.new.slot.kept)
        caller.now moment (AskStat path.now) result }
    ensures stat { result ≡ 0 → IsReplyTo (held_in session.old.slot.kept) (line_by caller.now moment (AskStat path.now))
        (stat_in stat.new) }
{
    session.stat(alloc, Context { caller, moment }, path, stat)
}

/// Asks for the quota record of a user, a group or a project: of kind 0, 1 or 2.
#[unsafe(no_mangle)]
pub extern "C" fn qfs_quota(
    alloc: Global,
    session: &mut Session,
    caller: &Caller,
    moment: u64,
    kind: u32,
    id: u32,
    quota: &mut QuotaReply,
) -> u32
    ensures kind { 2 < kind → IsToldNoKind (held_in session.old.slot.kept) (held_in session.new.slot.kept) result }
    ensures called { kind ≤ 2 → IsCalled (held_in session.old.slot.kept) (held_in session.new.slot.kept)
        caller.now moment (AskQuota (kind_in kind) id) result }
    ensures quota { result ≡ 0 → IsReplyTo (held_in session.old.slot.kept)
        (line_by caller.now moment (AskQuota (kind_in kind) id)) (quota_in quota.new) }
{
    let kind = match kind_of(kind) {
        Ok(kind) => kind,
        Err(fault) => return fault.code(),
    };
    session.quota(alloc, Context { caller, moment }, kind, id, quota)
}

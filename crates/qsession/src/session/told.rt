//! The calls of a session, as a caller of another language is told them.
ghost use Rattle.std.specs.Prelude.{◌≡◌, ◌≤◌, true, length, take};
ghost use Rattle.qplain.specs.declared.call.Call.TheVariants.{Stat as AskStat, Quota as AskQuota};
ghost use Rattle.qplain.specs.declared.reply.Reply.TheVariants.{Bytes};
ghost use Rattle.qsession.specs.Answers.{is_change};
ghost use Rattle.qsession.specs.BorrowedCalls.{call_at, read_of};
ghost use Rattle.qsession.specs.Called.{IsCalledIn, IsReplyTo};
ghost use Rattle.qsession.specs.Holdings.{held_in};
ghost use Rattle.qsession.specs.Replies.{done_in, quota_in, stat_in};
ghost use Rattle.qsession.specs.Requests.{line_in};

use super::Session;
use crate::borrowed_call::{Action, BorrowedCall, ReadFrom};
use crate::caller::Context;
use crate::laws::replies_are_of_their_kind;
use crate::path_text::PathText;
use crate::replies::{DoneReply, QuotaReply, StatReply};
use crate::telling::{tell_done, tell_quota, tell_read, tell_stat};
use qplain::Call;
use qrules::Kind;
use std::alloc::Global;

#[tactic(auto, using(crate::proofs::Calling::told_of_answers))]
impl Session {
    /// What is done at the path of these bytes, none of which is copied unless a journal keeps it, as a caller of
    /// another language is told it.
    #[inline(always)]
    pub fn change_at(
        &mut self,
        alloc: Global,
        context: Context<'_>,
        path: &[u8],
        action: Action<'_>,
        done: &mut DoneReply,
    ) -> u32
        requires { is_change (call_at path.now action) ≡ true }
        ensures called { IsCalledIn (held_in self.old.slot.kept) (held_in self.new.slot.kept) context.entry
            (call_at path.now action.entry) result }
        ensures done { result ≡ 0 → IsReplyTo (held_in self.old.slot.kept)
            (line_in context.entry (call_at path.now action.entry)) (done_in done.new) }
    {
        let path = match PathText::new(path) {
            Ok(path) => path,
            Err(fault) => return fault.code(),
        };
        replies_are_of_their_kind();
        let call = BorrowedCall { path, action };
        tell_done(self.ask(alloc, context, call), done)
    }

    /// A call that changes something, as a caller of another language is told it.
    pub fn change(
        &mut self,
        alloc: Global,
        context: Context<'_>,
        call: &Call,
        done: &mut DoneReply,
    ) -> u32
        requires { is_change call.now ≡ true }
        ensures called { IsCalledIn (held_in self.old.slot.kept) (held_in self.new.slot.kept)
            context.entry call.now result }
        ensures done { result ≡ 0
            → IsReplyTo (held_in self.old.slot.kept) (line_in context.entry call.now) (done_in done.new) }
    {
        replies_are_of_their_kind();
        tell_done(self.call(alloc, context, call), done)
    }

    /// A read of as many bytes as the buffer has, as a caller of another language is told it: the bytes stand at the
    /// front of the buffer.
    #[inline(always)]
    pub fn read(
        &mut self,
        alloc: Global,
        context: Context<'_>,
        from: ReadFrom<'_>,
        buffer: &mut [u8],
        len: &mut usize,
    ) -> u32
        ensures called { IsCalledIn (held_in self.old.slot.kept) (held_in self.new.slot.kept)
            context.entry (read_of from.entry (length buffer.old)) result }
        ensures bytes { result ≡ 0 → IsReplyTo (held_in self.old.slot.kept)
            (line_in context.entry (read_of from.entry (length buffer.old)))
            (Bytes (take len.new buffer.new)) }
        ensures room { result ≡ 0 → len.new ≤ length buffer.old }
    {
        tell_read(self.ask_bytes(alloc, context, from, buffer), len)
    }

    /// A stat of the path of these bytes, as a caller of another language is told it.
    #[inline(always)]
    pub fn stat(
        &mut self,
        alloc: Global,
        context: Context<'_>,
        path: &[u8],
        stat: &mut StatReply,
    ) -> u32
        ensures called { IsCalledIn (held_in self.old.slot.kept) (held_in self.new.slot.kept) context.entry
            (AskStat path.now) result }
        ensures stat { result ≡ 0 → IsReplyTo (held_in self.old.slot.kept)
            (line_in context.entry (AskStat path.now)) (stat_in stat.new) }
    {
        let path = match PathText::new(path) {
            Ok(path) => path,
            Err(fault) => return fault.code(),
        };
        replies_are_of_their_kind();
        let action = Action::Stat;
        let call = BorrowedCall { path, action };
        tell_stat(self.ask(alloc, context, call), stat)
    }

    /// A quota record, as a caller of another language is told it.
    pub fn quota(
        &mut self,
        alloc: Global,
        context: Context<'_>,
        kind: Kind,
        id: u32,
        quota: &mut QuotaReply,
    ) -> u32
        ensures called { IsCalledIn (held_in self.old.slot.kept) (held_in self.new.slot.kept)
            context.entry (AskQuota kind id) result }
        ensures quota { result ≡ 0
            → IsReplyTo (held_in self.old.slot.kept) (line_in context.entry (AskQuota kind id))
            (quota_in quota.new) }
    {
        replies_are_of_their_kind();
        let call = Call::Quota { kind, id };
        tell_quota(self.call(alloc, context, &call), quota)
    }
}

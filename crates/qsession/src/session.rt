//! Sessions.
ghost use Rattle.std.specs.Prelude.{◌≡◌, ◌≤◌, Some, None, IfSome, IfNone, IfOk, IfErr, OnErr, is_some, length};
ghost use Rattle.qplain.specs.declared.call.Call.{Call as CallValue};
ghost use Rattle.qsession.specs.BorrowedCalls.{call_of, read_of};
ghost use Rattle.qsession.specs.Brought.{HasTooManyGroups};
ghost use Rattle.qsession.specs.Called.{IsAnswered, IsCause};
ghost use Rattle.qsession.specs.Holdings.{HoldsLawful, HoldsTrue, held_in};
ghost use Rattle.qsession.specs.ReadReplies.{answer_with, count_in};
ghost use Rattle.qsession.specs.Requests.{caller_in};

use crate::borrowed_call::{BorrowedCall, ReadFrom};
use crate::caller::{Caller, Context};
use crate::fault::Fault;
use crate::kept::Kept;
use crate::laws::paths_are_good;
use crate::loose::Loose;
use crate::read_reply::ReadReply;
use crate::slot::Slot;
use qplain::{Call, Cred, Reply};
use std::alloc::Global;
use std::mem::replace;

mod told;

/// A store that a caller of another language holds, without or with a journal, or none: a session that is closed.
#[repr(C)]
#[derive(Drop)]
pub struct Session {
    is_open: bool,
    pub slot: Slot,
    pub ghost tied: { is_open ≡ is_some slot.kept },
}

/// The same value, for another thread.
fn moves_to<T: Send>(value: T) -> T
    ensures { result ≡ value }
{
    value
}

impl Session {
    /// The same session, for another thread: whatever it holds may go there with it.
    pub fn for_another_thread(self) -> Session
        ensures { result.slot.kept ≡ self.slot.kept }
    {
        moves_to(self)
    }

    /// A session that is closed.
    pub fn closed(alloc: Global) -> Session
        ensures { result.slot.kept ≡ None }
    {
        Session {
            is_open: false,
            slot: Slot::empty(alloc),
        }
    }

    /// A session of what is kept.
    pub fn of(kept: Box<Kept>) -> Session
        ensures { result.slot.kept ≡ Some kept.value }
    {
        Session {
            is_open: true,
            slot: Slot::of(Loose::of(kept)),
        }
    }

    /// Whether it is open.
    pub fn is_open(&self) -> bool
        ensures { result ≡ is_some self.now.slot.kept }
    {
        self.is_open
    }

    /// Takes out what is kept, and leaves the session closed.
    pub fn take(&mut self, alloc: Global) -> Option<Box<Kept>>
        ensures some { IfSome result (λ kept. self.old.slot.kept ≡ Some kept.value) }
        ensures none { IfNone result (self.old.slot.kept ≡ None) }
        ensures closed { self.new.slot.kept ≡ None }
    {
        if !self.is_open {
            return None;
        }
        let held = replace(self, Session::closed(alloc));
        Some(held.slot.into_loose().into_box())
    }

    /// A law, the headline for one thread: where the session keeps a journal, its store is exactly what that leaves
    /// when it is played from its beginning on the plain machine, and each journaled reply is that machine's.
    pub fn always_holds_true(&mut self, alloc: Global)
        ensures law { HoldsTrue (held_in self.old.slot.kept) }
        ensures same { self.new.slot.kept ≡ self.old.slot.kept }
    {
        let Some(held) = self.take(alloc) else {
            return;
        };
        held.always_holds_true();
        *self = Session::of(held);
    }

    /// A law: what a session holds is always lawful.
    pub fn always_lawful(&mut self, alloc: Global)
        ensures law { HoldsLawful (held_in self.old.slot.kept) }
        ensures same { self.new.slot.kept ≡ self.old.slot.kept }
    {
        let Some(held) = self.take(alloc) else {
            return;
        };
        held.store().always_lawful();
        *self = Session::of(held);
    }

    /// One call. A fault is Caller, before Closed, before those of the store.
    fn call(&mut self, alloc: Global, context: Context<'_>, call: &Call) -> Result<Reply, Fault>
        ensures { IsAnswered (held_in self.old.slot.kept) (held_in self.new.slot.kept) context.entry call.now result }
    {
        paths_are_good(call);
        let cred = match context.caller.cred(alloc) {
            Ok(cred) => cred,
            Err(fault) => return Err(fault),
        };
        let Some(mut kept) = self.take(alloc) else {
            return Err(Fault::Closed);
        };
        let answer = kept.call(&cred, context.moment, call);
        *self = Session::of(kept);
        answer
    }

    /// `call` of a borrowed call.
    #[inline(always)]
    fn ask(
        &mut self,
        alloc: Global,
        context: Context<'_>,
        call: BorrowedCall<'_>,
    ) -> Result<Reply, Fault>
        ensures { IsAnswered (held_in self.old.slot.kept) (held_in self.new.slot.kept) context.entry
            (call_of call.entry) result }
    {
        let cred = match context.caller.cred(alloc) {
            Ok(cred) => cred,
            Err(fault) => return Err(fault),
        };
        let Some(mut kept) = self.take(alloc) else {
            return Err(Fault::Closed);
        };
        let answer = kept.ask(alloc, &cred, context.moment, call);
        *self = Session::of(kept);
        answer
    }

    /// `ask` of a read.
    #[inline(always)]
    fn ask_bytes(
        &mut self,
        alloc: Global,
        context: Context<'_>,
        from: ReadFrom<'_>,
        buffer: &mut [u8],
    ) -> Result<ReadReply, Fault>
        ensures answered { IsAnswered (held_in self.old.slot.kept) (held_in self.new.slot.kept) context.entry
            (read_of from.entry (length buffer.old)) (answer_with buffer.new result) }
        ensures room { IfOk result (λ reply. count_in reply ≤ length buffer.old) }
    {
        let cred = match context.caller.cred(alloc) {
            Ok(cred) => cred,
            Err(fault) => return Err(fault),
        };
        let Some(mut kept) = self.take(alloc) else {
            return Err(Fault::Closed);
        };
        let answer = kept.read(alloc, &cred, context.moment, from, buffer);
        *self = Session::of(kept);
        answer
    }
}

//! What an open session keeps.
ghost use Rattle.std.specs.Prelude.{◌≡◌, ◌≤◌, ◌↔◌, Some, None, Err, IsErr, IfSome, IfNone, IfOk, IfErr, OnErr, length};
ghost use Rattle.qplain.specs.declared.line.Line.{Line};
ghost use Rattle.qplain.specs.declared.reply.Reply.{Reply as ReplyValue};
ghost use Rattle.qplain.specs.declared.call.Call.TheVariants.{Read};
ghost use Rattle.qplain.specs.declared.edition.Edition.TheVariants.{Two};
ghost use Rattle.qstore_journaled.specs.Lines.{line_of};
ghost use Rattle.qsession.specs.declared.kept.Kept.TheVariants.{Journaled as KeptJournaled};
ghost use Rattle.qsession.specs.BorrowedCalls.{call_of, read_of};
ghost use Rattle.qsession.specs.Faults.{fault_told};
ghost use Rattle.qsession.specs.Holdings.{HoldsTrue, holding_of, new_journaled, new_plain};
ghost use Rattle.qsession.specs.ReadReplies.{answer_with, count_in};
ghost use Rattle.qsession.specs.Steps.{CanCommit, HasCause, IsFull, IsReadyFor, IsStep};

use crate::borrowed_call::{BorrowedCall, ReadFrom};
use crate::fault::Fault;
use crate::laws::replies_are_of_their_kind;
use crate::read_reply::{ReadReply, put_answer};
use crate::recorder::Recorder;
use qplain::{Call, CallFault, Cred, NoMemory, Path, Reply, Setup};
use qstore::Store;
use std::alloc::Global;

/// A store, without or with a journal of its calls.
#[derive(Drop)]
pub enum Kept {
    Plain(Store),
    Journaled(Recorder),
}

/// The fault of a call that a journaled store has not made.
fn fault_of(fault: CallFault) -> Fault
    ensures { result ≡ fault_told fault }
{
    match fault {
        CallFault::JournalFull => Fault::JournalFull,
        CallFault::OutOfMemory => Fault::Memory,
    }
}

impl Kept {
    /// A new store of a setup. The hashes of names begin at `seed`, any number. An Err leaves nothing made.
    pub fn plain(alloc: Global, setup: Setup, seed: u64) -> Result<Kept, NoMemory>
        ensures { IfOk result (λ kept. holding_of kept ≡ new_plain setup) }
    {
        Ok(Kept::Plain(Store::new(alloc, setup, seed)?))
    }

    /// A new store of a setup of edition 2 that keeps a journal of its calls, which has no entry yet. Seed and Err are
    /// as for `plain`.
    pub fn journaled(alloc: Global, setup: Setup, seed: u64) -> Result<Kept, NoMemory>
        requires { setup.edition ≡ Two }
        ensures { IfOk result (λ kept. holding_of kept ≡ new_journaled setup) }
    {
        Ok(Kept::Journaled(Recorder::new(alloc, setup, seed)?))
    }

    /// The store.
    pub fn store(&self) -> &Store
        ensures { result.now.state ≡ (holding_of self.now).state }
    {
        match self {
            Kept::Plain(store) => store,
            Kept::Journaled(store) => store.store(),
        }
    }

    /// The store with its journal, where one is kept.
    pub fn recorder(&self) -> Option<&Recorder>
        ensures some { IfSome result (λ recorder. self.now ≡ KeptJournaled recorder.now) }
        ensures none { IfNone result ((holding_of self.now).journal ≡ None) }
    {
        match self {
            Kept::Plain(_) => None,
            Kept::Journaled(store) => Some(store),
        }
    }

    /// A law, the headline for one thread: where a journal is kept, the store is exactly what it leaves when it is
    /// played from its beginning on the plain machine, and each journaled reply is that machine's.
    pub fn always_holds_true(&self)
        ensures { HoldsTrue (Some (holding_of self.now)) }
    {
        if let Kept::Journaled(store) = self {
            let _entries = store.entries();
        }
    }

    /// One call: what is held and the reply are those of the plain machine's step, and where a journal is kept it has
    /// one entry more. An Err is JournalFull, before all else, or Memory, after all refusals, and changes nothing.
    #[inline(never)]
    pub fn call(&mut self, cred: &Cred, moment: u64, call: &Call) -> Result<Reply, Fault>
        ensures ok { IfOk result
            (IsStep (holding_of self.old) (holding_of self.new) (line_of cred.now moment call.now)) }
        ensures err { OnErr result (holding_of self.new ≡ holding_of self.old) }
        ensures cause { IfErr result (HasCause (holding_of self.old)) }
        ensures full { (result ≡ Err Fault.JournalFull) ↔ IsFull (Some (holding_of self.old)) }
    {
        match self {
            Kept::Plain(store) => match store.apply(cred, moment, call) {
                Ok(reply) => Ok(reply),
                Err(_) => Err(Fault::Memory),
            },
            Kept::Journaled(store) => match store.ready(cred, moment, call) {
                Ok(reply) => {
                    store.commit();
                    Ok(reply)
                }
                Err(fault) => Err(fault_of(fault)),
            },
        }
    }

    /// `call` of a borrowed call, of which nothing is copied unless a journal keeps it. An Err is JournalFull, where
    /// the journal is full, or Memory, also of a copy, which comes before refusals and JournalFull; it changes nothing.
    #[inline(always)]
    pub fn ask(
        &mut self,
        alloc: Global,
        cred: &Cred,
        moment: u64,
        call: BorrowedCall<'_>,
    ) -> Result<Reply, Fault>
        ensures ok { IfOk result
            (IsStep (holding_of self.old) (holding_of self.new) (line_of cred.now moment (call_of call.entry))) }
        ensures err { OnErr result (holding_of self.new ≡ holding_of self.old) }
        ensures cause { IfErr result (HasCause (holding_of self.old)) }
        ensures full { IsFull (Some (holding_of self.old)) → IsErr result }
    {
        if let Kept::Plain(store) = self {
            return match call.apply(store, cred, moment) {
                Ok(reply) => Ok(reply),
                Err(_) => Err(Fault::Memory),
            };
        }
        let call = match call.owned(alloc) {
            Ok(call) => call,
            Err(fault) => return Err(fault),
        };
        self.call(cred, moment, &call)
    }

    /// A read by `ask` of as many bytes as the buffer has: they stand at its front, or the buffer is as it was.
    #[inline(always)]
    pub fn read(
        &mut self,
        alloc: Global,
        cred: &Cred,
        moment: u64,
        from: ReadFrom<'_>,
        buffer: &mut [u8],
    ) -> Result<ReadReply, Fault>
        ensures ok { IfOk (answer_with buffer.new result) (IsStep (holding_of self.old) (holding_of self.new)
            (line_of cred.now moment (read_of from.entry (length buffer.old)))) }
        ensures room { IfOk result (λ reply. count_in reply ≤ length buffer.old) }
        ensures err { OnErr result (holding_of self.new ≡ holding_of self.old) }
        ensures cause { IfErr result (HasCause (holding_of self.old)) }
        ensures full { IsFull (Some (holding_of self.old)) → IsErr result }
    {
        let ReadFrom { path, off } = from;
        if let Kept::Plain(store) = self {
            return match store.read_into(cred, moment, path.text, off, buffer) {
                Ok(count) => Ok(ReadReply::Bytes(count)),
                Err(refusal) => Ok(ReadReply::Refused(refusal)),
            };
        }
        let path = match path.owned(alloc) {
            Ok(path) => path,
            Err(fault) => return Err(fault),
        };
        self.read_owned(cred, moment, path, off, buffer)
    }

    /// `read` of a path of its own, which a journal keeps.
    #[inline(never)]
    fn read_owned(
        &mut self,
        cred: &Cred,
        moment: u64,
        path: Path,
        off: u64,
        buffer: &mut [u8],
    ) -> Result<ReadReply, Fault>
        ensures ok { IfOk (answer_with buffer.new result) (IsStep (holding_of self.old) (holding_of self.new)
            (line_of cred.now moment (Read path off (length buffer.old)))) }
        ensures room { IfOk result (λ reply. count_in reply ≤ length buffer.old) }
        ensures err { OnErr result (holding_of self.new ≡ holding_of self.old) }
        ensures cause { IfErr result (HasCause (holding_of self.old)) }
        ensures full { IsFull (Some (holding_of self.old)) → IsErr result }
    {
        replies_are_of_their_kind();
        let len = buffer.len() as u64;
        let answer = self.call(cred, moment, &Call::Read { path, off, len });
        put_answer(answer, buffer)
    }

    /// Decides a call, makes every growth that it needs, keeps what is to be done, and gives the reply; what is held
    /// stays as it was. Faults are those of `call`.
    pub fn ready(&mut self, cred: &Cred, moment: u64, call: &Call) -> Result<Reply, Fault>
        ensures same { holding_of self.new ≡ holding_of self.old }
        ensures ready { IfOk result (IsReadyFor self.new (line_of cred.now moment call.now)) }
        ensures cause { IfErr result (HasCause (holding_of self.old)) }
        ensures full { (result ≡ Err Fault.JournalFull) ↔ IsFull (Some (holding_of self.old)) }
    {
        match self {
            Kept::Plain(store) => match store.ready(cred, moment, call) {
                Ok(reply) => Ok(reply),
                Err(_) => Err(Fault::Memory),
            },
            Kept::Journaled(store) => match store.ready(cred, moment, call) {
                Ok(reply) => Ok(reply),
                Err(fault) => Err(fault_of(fault)),
            },
        }
    }

    /// Makes the call that is ready. It takes no memory and always succeeds.
    pub fn commit(&mut self)
        requires { CanCommit self.old }
        ensures { (line : Line) (reply : ReplyValue) → IsReadyFor self.old line reply
            → IsStep (holding_of self.old) (holding_of self.new) line reply }
    {
        match self {
            Kept::Plain(store) => store.commit(),
            Kept::Journaled(store) => store.commit(),
        }
    }
}

//! Calls whose paths and bytes are the caller's, and are not copied unless they are kept.
ghost use Rattle.std.specs.Prelude.{◌≡◌, IfOk, IfErr};
ghost use Rattle.qblocks.specs.Input.{input_bytes};
ghost use Rattle.qstore.specs.Applied.{IsApplied};
ghost use Rattle.qsession.specs.BorrowedCalls.{call_of};

use crate::asking::data_of;
use crate::fault::Fault;
use crate::path_text::PathText;
use qblocks::Input;
use qplain::{Call, Cred, Data, NoMemory, Reply};
use qstore::Store;
use std::alloc::Global;

/// What a borrowed call does at its path, or asks of it.
#[derive(Clone, Copy)]
pub enum Action<'a> {
    Create,
    Mkdir,
    Write { off: u64, bytes: Input<'a> },
    Stat,
}

/// A call of a path and bytes that are borrowed.
#[derive(Clone, Copy)]
pub struct BorrowedCall<'a> {
    pub path: PathText<'a>,
    pub action: Action<'a>,
}

/// Where a read begins: the path of a file, and the offset in it.
#[derive(Clone, Copy)]
pub struct ReadFrom<'a> {
    pub path: PathText<'a>,
    pub off: u64,
}

/// The bytes of a write, which are copied, unless they are N equal ones. Err is Memory.
fn owned_bytes(alloc: Global, bytes: Input) -> Result<Data, Fault>
    ensures bytes { IfOk result (λ owned. owned ≡ input_bytes bytes.entry) }
    ensures fault { IfErr result (λ fault. fault ≡ Fault.Memory) }
{
    match bytes {
        Input::Bytes(bytes) => data_of(alloc, bytes),
        Input::Fill { count, byte } => Ok(Data::fill(count, byte)),
    }
}

impl<'a> BorrowedCall<'a> {
    /// The same call, whose path and bytes are its own. Err is Memory.
    #[inline(never)]
    pub(crate) fn owned(self, alloc: Global) -> Result<Call, Fault>
        ensures call { IfOk result (λ call. call ≡ call_of self.entry) }
        ensures fault { IfErr result (λ fault. fault ≡ Fault.Memory) }
    {
        let path = self.path.owned(alloc)?;
        match self.action {
            Action::Create => Ok(Call::Create { path }),
            Action::Mkdir => Ok(Call::Mkdir { path }),
            Action::Write { off, bytes } => {
                let bytes = owned_bytes(alloc, bytes)?;
                Ok(Call::Write { path, off, bytes })
            }
            Action::Stat => Ok(Call::Stat { path }),
        }
    }

    /// `apply` of the call.
    #[inline(always)]
    pub(crate) fn apply(
        self,
        store: &mut Store,
        cred: &Cred,
        moment: u64,
    ) -> Result<Reply, NoMemory>
        ensures { IsApplied store.old.state store.new.state cred.now moment (call_of self.entry) result }
    {
        let path = self.path.text;
        match self.action {
            Action::Create => store.create(cred, moment, path),
            Action::Mkdir => store.mkdir(cred, moment, path),
            Action::Write { off, bytes } => store.write(cred, moment, path, off, bytes),
            Action::Stat => Ok(store.stat(cred, moment, path)),
        }
    }
}

//! Who makes a call, and when.
ghost use Rattle.std.specs.Prelude.{◌≡◌, ◌<◌, ◌↔◌, Err, IfOk, IfErr};
ghost use Rattle.qplain.specs.declared.cred.TheConstants.{MAX_MORE_GROUPS};
ghost use Rattle.qsession.specs.Requests.{caller_in};
ghost use Rattle.qsession.specs.Brought.{IsCauseOfCaller};

use crate::fault::Fault;
use qplain::{Cred, MAX_MORE_GROUPS};
use std::alloc::Global;

/// Who makes a call: of the places for further groups the first `count` are read, at most 16. 0 is the superuser.
#[repr(C)]
#[derive(Clone, Copy, Debug)]
pub struct Caller {
    pub uid: u32,
    pub gid: u32,
    pub count: u32,
    pub groups: [u32; MAX_MORE_GROUPS],
}

/// What every call comes with: who makes it, and the moment.
#[derive(Clone, Copy)]
pub struct Context<'a> {
    pub caller: &'a Caller,
    pub moment: u64,
}

impl Caller {
    /// The caller. Err is Caller where there are more than 16 further groups, before Memory, which only a caller of one
    /// or more meets.
    pub fn cred(&self, alloc: Global) -> Result<Cred, Fault>
        ensures caller { IfOk result (λ cred. cred ≡ caller_in self.now) }
        ensures few { (result ≡ Err Fault.Caller) ↔ (MAX_MORE_GROUPS < self.now.count) }
        ensures fault { IfErr result (IsCauseOfCaller self.now) }
    {
        let count = self.count as usize;
        if count > MAX_MORE_GROUPS {
            return Err(Fault::Caller);
        }
        match Cred::new(alloc, self.uid, self.gid, &self.groups[..count]) {
            Ok(Some(cred)) => Ok(cred),
            Ok(None) => Err(Fault::Caller),
            Err(_) => Err(Fault::Memory),
        }
    }
}

//! What is wrong with a call as it is written, and who asks.
ghost use Rattle.std.specs.Prelude.{◌≡◌, Some, IfOk, IfErr};
ghost use Rattle.qplain.specs.declared.call.Call.{Call as CallValue};
ghost use Rattle.qplain.specs.Calls.{has_bad_number, refusal_of_arguments};
ghost use Rattle.qplain.specs.Known.{is_undeclared};
ghost use Rattle.qstore.specs.Requests.{IsConsistent, IsRequestFor, IsWritten};

use crate::{Call, Cred, Refusal, Request, Store};
use qplain::MAX_DATA;
use qrules::{Kind, MAX_MOMENT};

impl Store {
    /// Whether an owner is named that is not declared.
    fn is_undeclared(&self, kind: Kind, id: Option<u32>) -> bool
        ensures { result ≡ is_undeclared self.now.state kind id }
    {
        match id {
            Some(id) => self.accounts.slot(kind, id).is_none(),
            None => false,
        }
    }

    /// Whether a number of the call is outside its range, or an id that it names is not declared.
    pub(super) fn has_bad_number(&self, call: &Call) -> bool
        ensures { result ≡ has_bad_number self.now.state call.now }
    {
        match call {
            Call::Write { bytes, .. } => bytes.len() > MAX_DATA,
            Call::Read { len, .. } => *len > MAX_DATA,
            Call::Chown {
                uid,
                gid,
                project,
                ..
            } => {
                self.is_undeclared(Kind::User, *uid)
                    || self.is_undeclared(Kind::Group, *gid)
                    || self.is_undeclared(Kind::Project, *project)
            }
            Call::SetQuota { limits, .. } => !limits.are_in_range(),
            Call::SetGrace { graces } => !graces.are_in_range(),
            _ => false,
        }
    }

    /// Who asks, and when, or the refusal of a call for what is written: of each that has a bad number, or none, as it
    /// is said, and paths with this fault.
    #[inline(always)]
    pub(super) fn check<'a>(
        &mut self,
        cred: &'a Cred,
        moment: u64,
        bad_number: bool,
        fault: Option<Refusal>,
    ) -> Result<Request<'a>, Refusal>
        ensures same { self.new ≡ self.old }
        ensures whole { IsConsistent self.old }
        ensures checked { IfOk result (IsRequestFor self.old cred.now moment bad_number fault) }
        ensures refused { IfErr result (λ refusal. (call : CallValue) → IsWritten self.old.state bad_number fault call
            → refusal_of_arguments self.old.state cred.now moment call ≡ Some refusal) }
    {
        let Some(callers) = self.accounts.callers(cred) else {
            return Err(Refusal::EINVAL);
        };
        if moment > MAX_MOMENT || bad_number {
            return Err(Refusal::EINVAL);
        }
        if let Some(refusal) = fault {
            return Err(refusal);
        }
        Ok(Request {
            cred,
            callers,
            moment,
        })
    }
}

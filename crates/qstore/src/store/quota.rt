//! To ask for a quota record, and to set limits (quotactl(2), Q_GETQUOTA, Q_SETQUOTA; setquota(8)).
ghost use Rattle.std.specs.Prelude.{◌≡◌, ℕ};
ghost use Rattle.qplain.specs.Quotas.{ask_quota};
ghost use Rattle.qplain.specs.Step.{settle};
ghost use Rattle.qstore.specs.Decided.{CanDecide, IsDecisionOf};

use crate::{Call, Cred, Plan, Refusal, Reply, Request, Store};
use qplain::NO_CHANGE;
use qrules::{Kind, Limits};
use qstore_walk::is_own;

impl Store {
    /// The reply to a question for a record.
    pub(super) fn decide_quota(&self, cred: &Cred, kind: Kind, id: u32) -> Reply
        ensures { (moment : ℕ) → (self.now.state, result)
            ≡ settle self.now.state cred.now moment (ask_quota self.now.state cred.now kind id) }
    {
        if cred.uid() != 0 && !is_own(cred, kind, id) {
            return Reply::Refused(Refusal::EPERM);
        }
        match self.accounts.find(kind, id) {
            Some(holder) => Reply::Quota(holder.quota()),
            None => Reply::Refused(Refusal::ESRCH),
        }
    }

    /// Decides the setting of limits.
    pub(super) fn decide_set_quota(
        &mut self,
        request: &Request,
        kind: Kind,
        id: u32,
        limits: Limits,
    ) -> Reply
        requires { CanDecide self.old request.now }
        ensures { IsDecisionOf self.old self.new request.now (Call.SetQuota kind id limits) (Ok result) }
    {
        if request.cred.uid() != 0 {
            return self.refused(Refusal::EPERM);
        }
        match self.accounts.slot(kind, id) {
            None => self.refused(Refusal::ESRCH),
            Some(slot) => {
                self.accounts
                    .bill_of_limits(kind, slot, limits, request.moment, &mut self.bill);
                self.plan = Plan::Limits;
                Reply::Done(0, NO_CHANGE)
            }
        }
    }
}

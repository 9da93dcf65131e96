//! To set the graces (quotactl(2), Q_SETINFO; setquota(8)).
ghost use Rattle.std.specs.Prelude.{◌≡◌, true};
ghost use Rattle.qrules.specs.Range.{are_graces_in_range};
ghost use Rattle.qstore.specs.Decided.{CanDecide, IsDecisionOf};

use crate::{Call, Plan, Refusal, Reply, Request, Store};
use qplain::NO_CHANGE;
use qrules::Graces;

impl Store {
    /// Decides the setting of the graces. No end that stands moves.
    pub(super) fn decide_set_grace(&mut self, request: &Request, graces: Graces) -> Reply
        requires can { CanDecide self.old request.now }
        requires range { are_graces_in_range graces ≡ true }
        ensures { IsDecisionOf self.old self.new request.now (Call.SetGrace graces) (Ok result) }
    {
        if request.cred.uid() != 0 {
            return self.refused(Refusal::EPERM);
        }
        self.plan = Plan::SetGraces { graces };
        Reply::Done(0, NO_CHANGE)
    }
}

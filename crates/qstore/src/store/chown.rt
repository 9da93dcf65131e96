//! To give an inode other owners (chown(2)).
ghost use Rattle.std.specs.Prelude.{◌≡◌, ◌||◌, false};
ghost use Rattle.qrules.specs.declared.kind.Kind.TheVariants.{User, Group, Project};
ghost use Rattle.qplain.specs.Known.{is_undeclared};
ghost use Rattle.qstore.specs.Decided.{CanDecide, IsDecisionOf};

use crate::{Call, Exchange, Refusal, Reply, Request, Store};
use qstore_change::TreeChange;
use qstore_walk::{Found, find, may_give, renewed};

impl Store {
    /// Decides other owners of an inode; what is None stays.
    pub(super) fn decide_chown(
        &mut self,
        request: &Request,
        path: &str,
        uid: Option<u32>,
        gid: Option<u32>,
        project: Option<u32>,
    ) -> Reply
        requires can { CanDecide self.old request.now }
        requires declared { (is_undeclared self.old.state User uid || is_undeclared self.old.state Group gid
            || is_undeclared self.old.state Project project) ≡ false }
        ensures { IsDecisionOf self.old self.new request.now (Call.Chown path.now uid gid project) (Ok result) }
    {
        let Found { number, node } = match find(self.tree(), path) {
            Ok(found) => found,
            Err(refusal) => return self.refused(refusal),
        };
        let owners = renewed(uid, gid, project, node.owners);
        if !may_give(request.cred, node, owners) {
            return self.refused(Refusal::EPERM);
        }
        let from = self.claim_of(request, number, node);
        let to = self.claim(request, owners, from.weight.blocks);
        let change = TreeChange::Chown { number, owners };
        let (from, to) = (Some(from), Some(to));
        self.grant(request, number, &Exchange { from, to }, change)
    }
}

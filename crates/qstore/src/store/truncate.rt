//! To cut a file off, or to let it grow (truncate(2)).
ghost use Rattle.qstore.specs.Decided.{CanDecide, IsDecisionOf};

use crate::{Call, Exchange, Refusal, Reply, Request, Store};
use qstore_accounts::Claim;
use qstore_change::TreeChange;
use qstore_tree::Content;
use qstore_walk::{Found, find, may_write};

impl Store {
    /// Decides another size of a file.
    pub(super) fn decide_truncate(&mut self, request: &Request, path: &str, size: u64) -> Reply
        requires { CanDecide self.old request.now }
        ensures { IsDecisionOf self.old self.new request.now (Call.Truncate path.now size) (Ok result) }
    {
        let limit = self.file_limit;
        let Found { number, node } = match find(self.tree(), path) {
            Ok(found) => found,
            Err(refusal) => return self.refused(refusal),
        };
        let Content::File(file) = &node.content else {
            return self.refused(Refusal::EISDIR);
        };
        if !may_write(request.cred, node) {
            return self.refused(Refusal::EACCES);
        }
        if size > limit {
            return self.refused(Refusal::EFBIG);
        }
        let from = self.claim_of(request, number, node);
        let to = Claim::new(from.slots, from.weight.blocks - file.freed_by(size));
        let change = TreeChange::Truncate { number, size };
        let (from, to) = (Some(from), Some(to));
        self.grant(request, number, &Exchange { from, to }, change)
    }
}

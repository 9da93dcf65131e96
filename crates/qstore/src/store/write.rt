//! To write into a file (write(2)).
ghost use Rattle.std.specs.Prelude.{◌≡◌, ℕ, ◌+◌, ◌^◌, ◌<◌, ◌≤◌, nat_lt, length, Some, IfOk, IfErr};
ghost use Rattle.qblocks.specs.Input.{input_bytes};
ghost use Rattle.qplain.specs.State.{inode_at};
ghost use Rattle.qplain.specs.Calls.{attempt_of};
ghost use Rattle.qplain.specs.Step.{settle};
ghost use Rattle.qstore_tree.specs.Nodes.{inode_of};
ghost use Rattle.qstore.specs.Applied.{IsApplied};
ghost use Rattle.qstore.specs.Decided.{CanDecide, IsDecisionOf, IsPlanned, IsStretched, no_exchange};
ghost use Rattle.qstore.specs.Ready.{CanCarryOut, effect};
ghost use Rattle.qstore.specs.Stored.{IsStorable};
ghost use Rattle.qstore.specs.Targets.{IsTarget, put_plan, put_planned, put_reply};
ghost use Rattle.qstore.specs.Told.{total_change};

use crate::{Call, Cred, Decision, Exchange, NoMemory, Refusal, Reply, Request, Store};
use qblocks::{Input, Spare};
use qplain::{Data, MAX_DATA, NO_CHANGE};
use qstore_accounts::{Claim, change_of};
use qstore_change::{TreeChange, write};
use qstore_tree::{Content, Node};
use qstore_walk::{Found, find, may_write, path_fault};

/// A file that may be written into: what it takes, and how many blocks the write allocates.
#[derive(Clone, Copy)]
pub(super) struct Target {
    pub(super) number: u64,
    pub(super) exchange: Exchange,
    pub(super) missing: u64,
}

impl Store {
    /// A write by `apply`, of a path and bytes that are borrowed: the bytes are copied into the file alone.
    pub fn write(
        &mut self,
        cred: &Cred,
        moment: u64,
        path: &str,
        off: u64,
        bytes: Input<'_>,
    ) -> Result<Reply, NoMemory>
        ensures { IsApplied self.old.state self.new.state cred.now moment
            (Call.Write path.now off (input_bytes bytes.entry)) result }
    {
        let request = match self.check(cred, moment, bytes.len() > MAX_DATA, path_fault(path)) {
            Ok(request) => request,
            Err(refusal) => return Ok(Reply::Refused(refusal)),
        };
        let target = match self.target(&request, path, off, bytes) {
            Ok(target) => target,
            Err(reply) => return Ok(reply),
        };
        match self.room_for_put(&request, path, off, bytes, &target)? {
            Ok(spare) => Ok(self.put(&target, off, bytes, spare)),
            Err(refusal) => Ok(Reply::Refused(refusal)),
        }
    }

    /// Decides a write, and makes room for it.
    pub(super) fn decide_write(
        &mut self,
        request: &Request,
        path: &str,
        off: u64,
        bytes: &Data,
    ) -> Decision
        requires can { CanDecide self.old request.now }
        requires few { length bytes.now ≤ MAX_DATA }
        ensures { IsDecisionOf self.old self.new request.now (Call.Write path.now off bytes.now) result }
    {
        let input = bytes.input();
        let target = match self.target(request, path, off, input) {
            Ok(target) => target,
            Err(reply) => {
                self.clear_plan();
                return Ok(reply);
            }
        };
        let spare = match self.room_for_put(request, path, off, input, &target)? {
            Ok(spare) => spare,
            Err(refusal) => return Ok(self.refused(refusal)),
        };
        let (number, bytes) = (target.number, bytes.copy()?);
        let change = TreeChange::Write {
            number,
            off,
            bytes,
            spare,
        };
        Ok(self.granted(number, &target.exchange, change))
    }

    /// Whether the end of N bytes at the offset is past the file limit.
    fn is_past_limit(&self, off: u64, len: u64) -> bool
        requires { len ≤ MAX_DATA }
        ensures past { result ≡ nat_lt self.now.state.file_limit (off + len) }
    {
        off > self.file_limit || off + len > self.file_limit
    }

    /// The file that the path leads to, if the write comes so far, or else its reply.
    #[inline(always)]
    fn target(&self, request: &Request, path: &str, off: u64, bytes: Input) -> Result<Target, Reply>
        requires can { CanDecide self.now request.now }
        requires few { length (input_bytes bytes) ≤ MAX_DATA }
        ensures granted { IfOk result (IsTarget self.now request.now.cred.now path.now off (input_bytes bytes.entry)) }
        ensures refused { IfErr result (λ reply. (moment : ℕ) → settle self.now.state request.now.cred.now moment
            (attempt_of self.now.state request.now.cred.now (Call.Write path.now off (input_bytes bytes.entry)))
            ≡ (self.now.state, reply)) }
    {
        let Found { number, node } = match find(self.tree(), path) {
            Ok(found) => found,
            Err(refusal) => return Err(Reply::Refused(refusal)),
        };
        let Content::File(file) = &node.content else {
            return Err(Reply::Refused(Refusal::EISDIR));
        };
        if !may_write(request.cred, node) {
            return Err(Reply::Refused(Refusal::EACCES));
        }
        if bytes.is_empty() {
            return Err(Reply::Done(number, NO_CHANGE));
        }
        let len = bytes.len();
        if self.is_past_limit(off, len) {
            return Err(Reply::Refused(Refusal::EFBIG));
        }
        let missing = file.missing(off, len);
        Ok(Target {
            number,
            exchange: self.stretched(request, number, node, missing),
            missing,
        })
    }

    /// What is taken where N blocks are added to a file: nothing changes where there are none.
    #[inline(always)]
    fn stretched(&self, request: &Request, number: u64, node: &Node, more: u64) -> Exchange
        requires can { CanDecide self.now request.now }
        requires there { inode_at self.now.state number ≡ Some (inode_of node.now) }
        requires few { more ≤ 2 ^ 28 }
        ensures none { more ≡ 0 → result ≡ no_exchange }
        ensures some { 0 < more → IsStretched self.now (inode_of node.now) more result }
    {
        if more == 0 {
            let (from, to) = (None, None);
            return Exchange { from, to };
        }
        let claim = self.claim_of(request, number, node);
        let to = Some(Claim::new(claim.slots, claim.weight.blocks + more));
        let from = Some(claim);
        Exchange { from, to }
    }

    /// Makes room for a write that passed all tests but those of space and quota, or tells which of them refuses it.
    fn room_for_put(
        &mut self,
        request: &Request,
        path: &str,
        off: u64,
        bytes: Input,
        target: &Target,
    ) -> Result<Result<Spare, Refusal>, NoMemory>
        requires can { CanDecide self.old request.now }
        requires target { IsTarget self.old request.now.cred.now path.now off (input_bytes bytes) target.now }
        ensures { IsPlanned self.old self.new request.now
            (attempt_of self.old.state request.now.cred.now (Call.Write path.now off (input_bytes bytes.entry)))
            (put_planned target.now off (input_bytes bytes.entry) result) (put_reply target.now result) }
    {
        match self.admit(request, &target.exchange, 0) {
            Ok(()) => {}
            Err(refusal) => return Ok(Err(refusal)),
        }
        let spare = self
            .tree
            .ready_write(target.number, off, bytes.len(), target.missing)?;
        Ok(Ok(spare))
    }

    /// Writes where room is made, and settles the store's bill. It takes no memory and always succeeds.
    fn put(&mut self, target: &Target, off: u64, bytes: Input, spare: Spare) -> Reply
        requires can { CanCarryOut self.old (put_plan target.now off (input_bytes bytes) spare) }
        requires sound { IsStorable (effect self.old (put_plan target.now off (input_bytes bytes) spare)) }
        ensures state { self.new.state ≡ effect self.old (put_plan target.now off (input_bytes bytes.entry) spare) }
        ensures reply { result ≡ Reply.Done target.now.number (total_change target.now.exchange) }
    {
        write(&mut self.tree, target.number, off, bytes, spare);
        self.accounts.settle(&self.bill);
        Reply::Done(
            target.number,
            change_of(target.exchange.from, target.exchange.to),
        )
    }
}

//! To take a name away: of a file, which goes with its last one (unlink(2)), and of an empty directory (rmdir(2)).
ghost use Rattle.std.specs.Prelude.{◌≡◌, ◌≤◌, ◌<◌, true, Some};
ghost use Rattle.qplain.specs.Attempt.{Becomes};
ghost use Rattle.qplain.specs.Names.{rmdir_as, swept, unlink_as, without_name};
ghost use Rattle.qplain.specs.State.{inode_at, is_directory, named};
ghost use Rattle.qstore_tree.specs.Nodes.{inode_of};
ghost use Rattle.qstore_walk.specs.Paths.{name_in};
ghost use Rattle.qstore.specs.Decided.{CanDecide, IsAsked, IsDecision, IsDecisionOf, IsGivenUp, no_exchange};
ghost use Rattle.qstore_change.specs.FileTypes.{CanRemove};

use crate::{Call, Decision, Exchange, Path, Refusal, Request, Store};
use qstore_change::{FileType, removal};
use qstore_tree::{Content, Node};
use qstore_walk::{inode, is_empty, last_component, may_remove};

impl Store {
    /// Decides that a name goes.
    pub(super) fn decide_unlink(&mut self, request: &Request, path: &Path) -> Decision
        requires { CanDecide self.old request.now }
        ensures { IsDecisionOf self.old self.new request.now (Call.Unlink path.now) result }
    {
        let last = match last_component(self.tree(), path.text(), Refusal::EISDIR) {
            Ok(last) => last,
            Err(refusal) => return Ok(self.refused(refusal)),
        };
        match last.leads_to {
            Some(number) => self.take_name(request, path, last.dir, number),
            None => Ok(self.refused(Refusal::ENOENT)),
        }
    }

    /// Decides that the last name of the path goes out of the directory, where it leads to this number.
    fn take_name(&mut self, request: &Request, path: &Path, dir: u64, number: u64) -> Decision
        requires can { CanDecide self.old request.now }
        requires led { named self.old.state dir (name_in path.now) ≡ Some number }
        ensures { IsDecision self.old self.new request.now
            (unlink_as self.old.state request.now.cred.now dir (name_in path.now)) result }
    {
        let tree = self.tree();
        let Some(node) = inode(tree, number) else {
            return Ok(self.refused(Refusal::ENOENT));
        };
        let Content::File(_) = &node.content else {
            return Ok(self.refused(Refusal::EISDIR));
        };
        if !may_remove(tree, request.cred, dir, number, node) {
            return Ok(self.refused(Refusal::EPERM));
        }
        let exchange = self.given_up(request, number, node);
        self.grant_removal(request, path, dir, number, &exchange, FileType::File)
    }

    /// What is given up of a file where a name of it goes: all that it takes with its last name, and else nothing.
    #[inline(always)]
    pub(super) fn given_up(&self, request: &Request, number: u64, node: &Node) -> Exchange
        requires can { CanDecide self.now request.now }
        requires there { inode_at self.now.state number ≡ Some (inode_of node.now) }
        ensures more { 1 < node.now.links → result ≡ no_exchange }
        ensures last { node.now.links ≤ 1 → IsGivenUp self.now (inode_of node.now) result }
    {
        let to = None;
        if node.links > 1 {
            return Exchange { from: None, to };
        }
        let from = Some(self.claim_of(request, number, node));
        Exchange { from, to }
    }

    /// Decides that the last name of the path goes, once all other tests are passed, and shares the path.
    #[inline(always)]
    pub(super) fn grant_removal(
        &mut self,
        request: &Request,
        path: &Path,
        dir: u64,
        number: u64,
        exchange: &Exchange,
        sort: FileType,
    ) -> Decision
        requires asked { IsAsked self.old exchange.now 0
            (swept (without_name self.old.state dir (name_in path.now))) }
        requires can { CanRemove sort self.old.state dir number (name_in path.now) }
        ensures { IsDecision self.old self.new request.now
            (Becomes (swept (without_name self.old.state dir (name_in path.now))) number) result }
    {
        match self.admit(request, exchange, 0) {
            Ok(()) => {}
            Err(refusal) => return Ok(self.refused(refusal)),
        }
        let path = path.copy()?;
        let change = removal(sort, dir, path, number);
        Ok(self.granted(number, exchange, change))
    }

    /// Decides that a directory goes.
    pub(super) fn decide_rmdir(&mut self, request: &Request, path: &Path) -> Decision
        requires { CanDecide self.old request.now }
        ensures { IsDecisionOf self.old self.new request.now (Call.Rmdir path.now) result }
    {
        let last = match last_component(self.tree(), path.text(), Refusal::EBUSY) {
            Ok(last) => last,
            Err(refusal) => return Ok(self.refused(refusal)),
        };
        match last.leads_to {
            Some(number) => self.take_directory(request, path, last.dir, number),
            None => Ok(self.refused(Refusal::ENOENT)),
        }
    }

    /// Decides that the last name of the path goes out of the directory, where it leads to this number.
    #[inline(never)]
    fn take_directory(&mut self, request: &Request, path: &Path, dir: u64, number: u64) -> Decision
        requires can { CanDecide self.old request.now }
        requires directory { is_directory self.old.state dir ≡ true }
        requires led { named self.old.state dir (name_in path.now) ≡ Some number }
        ensures { IsDecision self.old self.new request.now
            (rmdir_as self.old.state request.now.cred.now dir (name_in path.now)) result }
    {
        let tree = self.tree();
        let Some(node) = inode(tree, number) else {
            return Ok(self.refused(Refusal::ENOENT));
        };
        let Content::Directory(_) = &node.content else {
            return Ok(self.refused(Refusal::ENOTDIR));
        };
        if !may_remove(tree, request.cred, dir, number, node) {
            return Ok(self.refused(Refusal::EPERM));
        }
        if !is_empty(tree, number) {
            return Ok(self.refused(Refusal::ENOTEMPTY));
        }
        let (from, to) = (Some(self.claim_of(request, number, node)), None);
        self.grant_removal(
            request,
            path,
            dir,
            number,
            &Exchange { from, to },
            FileType::Directory,
        )
    }
}

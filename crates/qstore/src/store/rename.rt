//! To give a file a further name (link(2)), and an inode another one, in place of what has that (rename(2)).
ghost use Rattle.std.specs.Prelude.{◌≡◌, ℕ, ◌<◌, false, true, not, List, Some};
ghost use Rattle.qplain.specs.Attempt.{Becomes};
ghost use Rattle.qplain.specs.Names.{with_name};
ghost use Rattle.qplain.specs.Renames.{passes, rename_as};
ghost use Rattle.qplain.specs.State.{Inode, inode_at, is_directory};
ghost use Rattle.qplain.specs.Use.{is_empty};
ghost use Rattle.qstore_tree.specs.Room.{Room, name_room};
ghost use Rattle.qstore_tree.specs.TreeOf.{IsFile};
ghost use Rattle.qstore_walk.specs.Paths.{name_in};
ghost use Rattle.qstore_change.specs.Changes.{CanRename};
ghost use Rattle.qstore.specs.Decided.{CanDecide, IsAsked, IsDecision, IsDecisionOf, IsFree};
ghost use Rattle.qstore.specs.Renamings.{IsRenaming, with_new_name};

use crate::{Call, Decision, Exchange, Path, Reply, Request, Store};
use qplain::NO_CHANGE;
use qstore_change::TreeChange;
use qstore_tree::Content;
use qstore_walk::{
    FurtherName, Renaming, find_renaming, further_name, inode, is_its_own, rename_fault,
};

impl Store {
    /// Decides a further name of a file, and makes room for it.
    pub(super) fn decide_link(&mut self, request: &Request, from: &str, to: &str) -> Decision
        requires { CanDecide self.old request.now }
        ensures { IsDecisionOf self.old self.new request.now (Call.Link from.now to.now) result }
    {
        match further_name(self.tree(), from, to) {
            Ok(new) => self.name_file(request, &new),
            Err(refusal) => Ok(self.refused(refusal)),
        }
    }

    /// Decides a further name of a file that may have it, and makes room for it.
    #[inline(never)]
    fn name_file(&mut self, request: &Request, new: &FurtherName) -> Decision
        requires can { CanDecide self.old request.now }
        requires file { IsFile self.old.state new.now.number }
        requires free { IsFree self.old.state new.now.dir new.now.name.now }
        ensures { IsDecision self.old self.new request.now (Becomes
            (with_name self.old.state new.now.dir new.now.name.now new.now.number) new.now.number) result }
    {
        let (from, to) = (None, None);
        let exchange = Exchange { from, to };
        match self.admit(request, &exchange, 0) {
            Ok(()) => {}
            Err(refusal) => return Ok(self.refused(refusal)),
        }
        let name = String::from_str(self.alloc, new.name)?;
        self.tree.make_name_room(new.dir)?;
        let FurtherName { number, dir, .. } = *new;
        let change = TreeChange::Link { dir, name, number };
        Ok(self.granted(number, &exchange, change))
    }

    /// Decides another name of an inode, and makes room for it.
    pub(super) fn decide_rename(&mut self, request: &Request, from: &Path, to: &str) -> Decision
        requires { CanDecide self.old request.now }
        ensures { IsDecisionOf self.old self.new request.now (Call.Rename from.now to.now) result }
    {
        let new = match find_renaming(self.tree(), from.text(), to) {
            Ok(new) => new,
            Err(refusal) => return Ok(self.refused(refusal)),
        };
        if is_its_own(&new) {
            self.clear_plan();
            return Ok(Reply::Done(new.number, NO_CHANGE));
        }
        self.rename_over(request, from, to, &new)
    }

    /// Decides a name of an inode that leads to another inode now, or to none.
    #[inline(never)]
    fn rename_over(&mut self, request: &Request, from: &Path, to: &str, new: &Renaming) -> Decision
        requires can { CanDecide self.old request.now }
        requires renaming { IsRenaming self.old.state (name_in from.now) new.now }
        ensures { (inode : Inode) → inode_at self.old.state new.now.number ≡ Some inode
            → IsDecision self.old self.new request.now (rename_as self.old.state request.now.cred.now to.now new.now.dir
            (name_in from.now) new.now.number inode new.now.to.dir new.now.to.name.now) result }
    {
        let tree = self.tree();
        let Some(node) = inode(tree, new.number) else {
            unreachable!()
        };
        match rename_fault(tree, request.cred, to, new, node) {
            Some(refusal) => return Ok(self.refused(refusal)),
            None => {}
        }
        let exchange = self.replaced(request, new);
        self.grant_rename(request, from, new, &exchange)
    }

    /// What the inode that the new name leads to takes, before and after: it goes with its last name.
    fn replaced(&self, request: &Request, new: &Renaming) -> Exchange
        requires can { CanDecide self.now request.now }
        requires renaming { (name : List ℕ) × IsRenaming self.now.state name new.now }
        requires empty { passes (λ number. not (is_empty self.now.state number)) new.now.to.leads_to ≡ false }
        ensures { (name : List ℕ) → IsRenaming self.now.state name new.now
            → IsAsked self.now result 0 (with_new_name self.now.state name new.now) }
    {
        let Some(number) = new.to.leads_to else {
            let (from, to) = (None, None);
            return Exchange { from, to };
        };
        let Some(node) = inode(self.tree(), number) else {
            unreachable!()
        };
        match &node.content {
            Content::Directory(_) => {
                let from = Some(self.claim_of(request, number, node));
                Exchange { from, to: None }
            }
            Content::File(_) => self.given_up(request, number, node),
        }
    }

    /// Decides a rename that passed its own tests, and makes room for it.
    fn grant_rename(
        &mut self,
        request: &Request,
        from: &Path,
        new: &Renaming,
        exchange: &Exchange,
    ) -> Decision
        requires directory { is_directory self.old.state new.now.to.dir ≡ true }
        requires asked { IsAsked self.old exchange.now 0 (with_new_name self.old.state (name_in from.now) new.now) }
        requires can { (room : Room) → 0 < name_room room new.now.to.dir
            → CanRename self.old.state room new.now.dir (name_in from.now) new.now.to.dir new.now.to.name.now
            new.now.number }
        ensures { IsDecision self.old self.new request.now
            (Becomes (with_new_name self.old.state (name_in from.now) new.now) new.now.number) result }
    {
        match self.admit(request, exchange, 0) {
            Ok(()) => {}
            Err(refusal) => return Ok(self.refused(refusal)),
        }
        let to_name = String::from_str(self.alloc, new.to.name)?;
        let path = from.copy()?;
        self.tree.make_name_room(new.to.dir)?;
        let change = TreeChange::Rename {
            dir: new.dir,
            path,
            to_dir: new.to.dir,
            to_name,
            number: new.number,
        };
        Ok(self.granted(new.number, exchange, change))
    }
}

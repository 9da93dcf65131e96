//! To create a file (open(2)), and to make a directory (mkdir(2)).
ghost use Rattle.std.specs.Prelude.{◌≡◌, true};
ghost use Rattle.qplain.specs.Attempt.{Becomes};
ghost use Rattle.qplain.specs.Names.{created, owners_by, project_of, unless_too_many_links};
ghost use Rattle.qplain.specs.State.{inode_at, is_directory, new_directory};
ghost use Rattle.qstore.specs.Applied.{IsApplied};
ghost use Rattle.qstore.specs.Decided.{CanDecide, IsConsistent, IsDecision, IsDecisionOf, IsFree};
ghost use Rattle.qstore_change.specs.FileTypes.{inode_new};

use crate::{Call, Cred, Decision, Exchange, NoMemory, Refusal, Reply, Request, Store};
use qstore_change::{FileType, creation};
use qstore_walk::{caller_owners, has_all_links, inode, last_component, path_fault};

impl Store {
    /// A create by `apply`, of a path that is borrowed.
    pub fn create(&mut self, cred: &Cred, moment: u64, path: &str) -> Result<Reply, NoMemory>
        ensures { IsApplied self.old.state self.new.state cred.now moment (Call.Create path.now) result }
    {
        let request = match self.check(cred, moment, false, path_fault(path)) {
            Ok(request) => request,
            Err(refusal) => return Ok(Reply::Refused(refusal)),
        };
        let reply = self.decide_create(&request, path)?;
        self.commit();
        Ok(reply)
    }

    /// A mkdir by `apply`, of a path that is borrowed.
    pub fn mkdir(&mut self, cred: &Cred, moment: u64, path: &str) -> Result<Reply, NoMemory>
        ensures { IsApplied self.old.state self.new.state cred.now moment (Call.Mkdir path.now) result }
    {
        let request = match self.check(cred, moment, false, path_fault(path)) {
            Ok(request) => request,
            Err(refusal) => return Ok(Reply::Refused(refusal)),
        };
        let reply = self.decide_mkdir(&request, path)?;
        self.commit();
        Ok(reply)
    }

    /// Decides the creation of a file, and makes room for it.
    pub(super) fn decide_create(&mut self, request: &Request, path: &str) -> Decision
        requires { CanDecide self.old request.now }
        ensures { IsDecisionOf self.old self.new request.now (Call.Create path.now) result }
    {
        let last = match last_component(self.tree(), path, Refusal::EEXIST) {
            Ok(last) => last,
            Err(refusal) => return Ok(self.refused(refusal)),
        };
        match last.leads_to {
            Some(_) => Ok(self.refused(Refusal::EEXIST)),
            None => self.make_inode(request, last.dir, last.name, FileType::File),
        }
    }

    /// The project of what is made in a directory: the directory's.
    fn project_of(&self, dir: u64) -> Option<u32>
        requires whole { IsConsistent self.now }
        requires directory { is_directory self.now.state dir ≡ true }
        ensures { result ≡ project_of (inode_at self.now.state dir) }
    {
        // The directory would say the same: this saves its look-up.
        if self.accounts.has_no_projects() {
            return None;
        }
        match inode(self.tree(), dir) {
            Some(node) => node.owners.project,
            None => None,
        }
    }

    /// Makes room for a new inode of the caller's, if it is granted.
    pub(super) fn make_inode(
        &mut self,
        request: &Request,
        dir: u64,
        name: &str,
        sort: FileType,
    ) -> Decision
        requires can { CanDecide self.old request.now }
        requires free { IsFree self.old.state dir name.now }
        ensures { let cred = request.now.cred.now in IsDecision self.old self.new request.now (Becomes
            (created self.old.state (inode_new sort (owners_by self.old.state cred dir)) dir name.now)
            self.old.state.next) result }
    {
        let owners = caller_owners(request.cred, self.project_of(dir));
        let (from, to) = (None, Some(self.claim(request, owners, 0)));
        let exchange = Exchange { from, to };
        match self.admit(request, &exchange, 1) {
            Ok(()) => {}
            Err(refusal) => return Ok(self.refused(refusal)),
        }
        let name = String::from_str(self.alloc, name)?;
        self.tree.make_room(dir)?;
        let change = creation(sort, dir, name, owners);
        let number = self.next;
        Ok(self.granted(number, &exchange, change))
    }

    /// Decides the making of a directory, and makes room for it.
    pub(super) fn decide_mkdir(&mut self, request: &Request, path: &str) -> Decision
        requires { CanDecide self.old request.now }
        ensures { IsDecisionOf self.old self.new request.now (Call.Mkdir path.now) result }
    {
        let last = match last_component(self.tree(), path, Refusal::EEXIST) {
            Ok(last) => last,
            Err(refusal) => return Ok(self.refused(refusal)),
        };
        match last.leads_to {
            Some(_) => Ok(self.refused(Refusal::EEXIST)),
            None => self.make_directory(request, last.dir, last.name),
        }
    }

    /// Makes room for a new directory, if its parent may have one link more and it is granted.
    fn make_directory(&mut self, request: &Request, dir: u64, name: &str) -> Decision
        requires can { CanDecide self.old request.now }
        requires free { IsFree self.old.state dir name.now }
        ensures { let cred = request.now.cred.now in IsDecision self.old self.new request.now (unless_too_many_links
            (created self.old.state (new_directory (owners_by self.old.state cred dir)) dir name.now)
            self.old.state.next) result }
    {
        if has_all_links(self.tree(), dir) {
            return Ok(self.refused(Refusal::EMLINK));
        }
        self.make_inode(request, dir, name, FileType::Directory)
    }
}

//! The store: its parts, and one call from its decision to its commit.
ghost use Rattle.std.specs.Prelude.{◌≡◌, ◌<◌, ◌^◌, true, false, All, IfOk, OnOk, OnErr};
ghost use Rattle.std.specs.Result.{IsOk};
ghost use Rattle.qrules.specs.Sort.{Blocks, Inodes};
ghost use Rattle.qplain.specs.State.{start};
ghost use Rattle.qplain.specs.Use.{total_of};
ghost use Rattle.qplain.specs.Caller.{is_superuser};
ghost use Rattle.qplain.specs.Calls.{has_bad_number};
ghost use Rattle.qplain.specs.Step.{step};
ghost use Rattle.qplain_laws.specs.Laws.{IsLawful, PassesNoLimit};
ghost use Rattle.qstore_tree.specs.TreeOf.{IsTreeOf};
ghost use Rattle.qstore.specs.Stored.{Stored};
ghost use Rattle.qstore.specs.Decided.{CanDecide, IsDecisionOf};
ghost use Rattle.qstore.specs.Ready.{IsReady, IsRefused, committed, wants_no_memory};

use crate::{Call, Cred, Decision, NoMemory, Plan, Reply, Request, Setup};
use qstore_accounts::{Accounts, Bill};
use qstore_tree::Tree;
use qstore_walk::{paths_fault, root_owners};
use std::alloc::Global;
use std::marker::Model;

mod arguments;
mod bounds;
mod chown;
mod claims;
mod commit;
mod create;
mod look;
mod parts;
mod plan;
mod quota;
mod removal;
mod rename;
mod set_grace;
mod truncate;
mod write;

/// Inodes, names and quota records in memory, whose state and replies are those of the plain machine.
/// Every record's use, the totals and the link counts are kept, and no call walks the inodes or the names.
pub struct Store {
    alloc: Global,
    file_limit: u64,
    accounts: Accounts,
    tree: Tree,
    next: u64,
    bill: Bill,
    plan: Plan,
}

// By hand: a derived drop is taken apart, plan by plan, in the proof of each function that drops a store.
impl Drop for Store {
    fn drop(self) {
        let Store {
            alloc: _,
            file_limit: _,
            accounts,
            tree,
            next: _,
            bill: _,
            plan,
        } = self;
    }
}

impl Model for Store {
    ghost use Rattle.qstore.specs.Stored.{Stored};

    ghost Value = { Stored };

    ghost use Rattle.qstore.specs.Kept.{stored_of};

    ghost view = { stored_of };

    ghost use Rattle.qstore.specs.Parts.{AreParts};

    ghost invariant = { λ a. AreParts a.file_limit a.accounts a.tree a.next };
}

impl Store {
    /// A new store of a setup. It holds the root directory, inode 1 of user 0, group 0 and, where projects are
    /// declared, project 0; the next number is 2, and a file has at most 2^30 bytes in edition 1 and 2^40 in edition 2
    /// (tmpfs(5), profile). The hashes of names begin at `seed`, any number: who does not know it cannot search for
    /// names that collide, and no answer depends on it. After an Err nothing was made. O(n) for n principals.
    pub fn new(alloc: Global, setup: Setup, seed: u64) -> Result<Store, NoMemory>
        ensures { IfOk result (λ s. s.state ≡ start setup) }
    {
        Ok(Store {
            alloc,
            file_limit: setup.file_limit(),
            accounts: Accounts::new(alloc, &setup)?,
            tree: Tree::new(alloc, seed, root_owners(&setup))?,
            next: 2,
            bill: Bill::empty(),
            plan: Plan::Nothing,
        })
    }

    /// Laws: the state of every store is lawful, and its blocks fit 64 bits.
    pub fn always_lawful(&self)
        ensures lawful { IsLawful self.now.state }
        ensures fits { total_of self.now.state Blocks < 2 ^ 64 }
    {
        let _blocks = self.accounts.blocks();
    }

    /// The allocated blocks of 4096 bytes. O(1).
    pub fn blocks(&self) -> u64
        ensures { result ≡ total_of self.now.state Blocks }
    {
        self.accounts.blocks()
    }

    /// The inodes, the root among them. O(1).
    pub fn inodes(&self) -> u64
        ensures { result ≡ total_of self.now.state Inodes }
    {
        self.accounts.inodes()
    }

    fn tree(&self) -> &Tree
        ensures { IsTreeOf self.now.state result.now }
    {
        &self.tree
    }

    /// Decides a call that is written as it may be, and makes every growth that it needs.
    #[inline(always)]
    fn decide_lawful(&mut self, request: &Request, call: &Call) -> Decision
        requires can { CanDecide self.old request.now }
        requires numbers { has_bad_number self.old.state call.now ≡ false }
        ensures decided { IsDecisionOf self.old self.new request.now call.now result }
        ensures answered { wants_no_memory call.now ≡ true → IsOk result }
    {
        match call {
            Call::Create { path } => self.decide_create(request, path.text()),
            Call::Mkdir { path } => self.decide_mkdir(request, path.text()),
            Call::Write { path, off, bytes } => {
                self.decide_write(request, path.text(), *off, bytes)
            }
            Call::Truncate { path, size } => {
                Ok(self.decide_truncate(request, path.text(), *size))
            }
            Call::Read { path, off, len } => {
                self.clear_plan();
                self.decide_read(path.text(), *off, *len)
            }
            Call::Stat { path } => {
                self.clear_plan();
                Ok(self.decide_stat(path.text()))
            }
            Call::Link { from, to } => self.decide_link(request, from.text(), to.text()),
            Call::Unlink { path } => self.decide_unlink(request, path),
            Call::Rmdir { path } => self.decide_rmdir(request, path),
            Call::Rename { from, to } => self.decide_rename(request, from, to.text()),
            Call::Chown {
                path,
                uid,
                gid,
                project,
            } => { Ok(self.decide_chown(request, path.text(), *uid, *gid, *project)) }
            Call::SetQuota { kind, id, limits } => {
                Ok(self.decide_set_quota(request, *kind, *id, *limits))
            }
            Call::SetGrace { graces } => Ok(self.decide_set_grace(request, *graces)),
            Call::Quota { kind, id } => {
                self.clear_plan();
                Ok(self.decide_quota(request.cred, *kind, *id))
            }
        }
    }

    /// Decides a call, makes every growth that it needs, keeps what is to be done, and gives the reply. The state is
    /// left as it was.
    ///
    /// `moment` is in seconds; above 2^40 the reply is EINVAL. A refusal is a reply, and needs no memory: EINVAL first,
    /// then ENAMETOOLONG, the call's own tests, ENOSPC, EDQUOT. Err is out of memory alone, after all refusals, and
    /// leaves the state as it was, too: only a granted create, mkdir, write, read, link, unlink, rmdir or rename meets
    /// it. The bytes of a write are not copied: the call and what is ready share them.
    ///
    /// What is ready is for `commit`, before any other call of this store but a stat. It may be left: the next `ready`
    /// takes its place, the room of a create, a mkdir or a link serves the next of them in its directory, a write's
    /// blocks go with it, and what is left in its file is taken out by that file's next write.
    #[inline(never)]
    pub fn ready(&mut self, cred: &Cred, moment: u64, call: &Call) -> Decision
        ensures state { self.new.state ≡ self.old.state }
        ensures step { IfOk result (λ reply. (committed self.new, reply)
            ≡ step self.old.state cred.now moment call.now) }
        ensures ready { OnOk result (IsReady self.new) }
        ensures refused_first { IsRefused (step self.old.state cred.now moment call.now).1 → IsOk result }
        ensures answered { wants_no_memory call.now ≡ true → IsOk result }
    {
        let has_bad_number = self.has_bad_number(call);
        let request = match self.check(cred, moment, has_bad_number, paths_fault(call)) {
            Ok(request) => request,
            Err(refusal) => return Ok(self.refused(refusal)),
        };
        self.decide_lawful(&request, call)
    }

    /// Does what is ready. It takes no memory and always succeeds.
    /// The caller owes that this store had no other call since `ready`, but a stat.
    #[inline(always)]
    pub fn commit(&mut self)
        requires { IsReady self.old }
        ensures { self.new.state ≡ committed self.old }
    {
        match &self.plan {
            Plan::Nothing => {}
            _ => self.carry_out(),
        }
    }

    /// One call: the state and the reply are those of the plain machine's step. An Err leaves the state as it was, and
    /// comes after all refusals. Moments and refusals, and which calls may want memory, are as for `ready`; no bytes
    /// are copied beside the file. O(bytes of the path and of the data), and O(log n) for each 64 KiB of a file of n
    /// blocks, where names do not collide and no map has to grow.
    pub fn apply(&mut self, cred: &Cred, moment: u64, call: &Call) -> Result<Reply, NoMemory>
        ensures ok { IfOk result (λ reply. (self.new.state, reply) ≡ step self.old.state cred.now moment call.now) }
        ensures err { OnErr result (self.new.state ≡ self.old.state) }
        ensures refused_first { IsRefused (step self.old.state cred.now moment call.now).1 → IsOk result }
        ensures answered { wants_no_memory call.now ≡ true → IsOk result }
        // In words: nobody but the superuser raises a use past a hard limit, or past a soft one whose grace has ended.
        ensures limits { OnOk result (is_superuser cred.now ≡ false
            → All (PassesNoLimit self.old.state self.new.state moment) self.old.state.holders) }
    {
        let reply = self.ready(cred, moment, call)?;
        self.commit();
        Ok(reply)
    }
}

//! What an inode takes of its owners' records, and the bill of a change.
ghost use Rattle.std.specs.Prelude.{◌≡◌, ◌≤◌, true, Some, is_some, IfErr, IfSome, OnOk};
ghost use Rattle.std.specs.Option.{IsSome};
ghost use Rattle.qrules.specs.Sort.{Blocks};
ghost use Rattle.qplain.specs.State.{Inode, State, inode_at};
ghost use Rattle.qplain.specs.Use.{weight};
ghost use Rattle.qplain.specs.Attempt.{Becomes};
ghost use Rattle.qstore_tree.specs.Nodes.{inode_of};
ghost use Rattle.qstore_accounts.specs.Books.{HasSlots};
ghost use Rattle.qstore_accounts.specs.Replacements.{IsClaimed};
ghost use Rattle.qstore_change.specs.Changes.{CanChange, changed};
ghost use Rattle.qstore.specs.Decided.{CanDecide, IsAsked, IsBilled, IsConsistent, IsDecision, IsUnbilled};
ghost use Rattle.qstore.specs.Requests.{IsWithProject, are_declared, is_declared_if_any};
ghost use Rattle.qstore.specs.Stored.{IsSameStore};

use crate::{Exchange, Refusal, Reply, Request, Store};
use qplain::{MAX_BLOCKS, Owners};
use qrules::Kind;
use qstore_accounts::{Claim, Slots};
use qstore_change::TreeChange;
use qstore_tree::Node;

impl Store {
    /// Where the records of these owners stand, if all are declared.
    #[inline(always)]
    pub(super) fn slots(&self, owners: Owners) -> Option<Slots>
        ensures declared { is_some result ≡ are_declared self.now.state owners }
        ensures slots { IfSome result (λ slots. HasSlots self.now.books slots owners) }
        ensures whole { IsConsistent self.now }
    {
        let user = self.accounts.slot(Kind::User, owners.uid)?;
        let group = self.accounts.slot(Kind::Group, owners.gid)?;
        let alone = Slots {
            user,
            group,
            project: None,
        };
        self.with_project(alone, owners.project)
    }

    /// The slots of a user and of a group, with that of a project, if there is one: all, if it is declared.
    #[inline(always)]
    fn with_project(&self, slots: Slots, project: Option<u32>) -> Option<Slots>
        ensures declared { is_some result ≡ is_declared_if_any self.now.state project }
        ensures slots { IfSome result (IsWithProject self.now.books slots project) }
    {
        let project = match project {
            Some(id) => Some(self.accounts.slot(Kind::Project, id)?),
            None => None,
        };
        Some(Slots { project, ..slots })
    }

    /// The same, where those of the caller are found already.
    #[inline(always)]
    fn owner_slots(&self, request: &Request, owners: Owners) -> Option<Slots>
        requires { CanDecide self.now request.now }
        ensures declared { are_declared self.now.state owners ≡ true → IsSome result }
        ensures slots { IfSome result (λ slots. HasSlots self.now.books slots owners) }
    {
        if owners.uid == request.cred.uid() && owners.gid == request.cred.gid() {
            return self.with_project(request.callers, owners.project);
        }
        self.slots(owners)
    }

    /// What an inode of these owners takes that has N blocks.
    #[inline(always)]
    pub(super) fn claim(&self, request: &Request, owners: Owners, blocks: u64) -> Claim
        requires can { CanDecide self.now request.now }
        requires declared { are_declared self.now.state owners ≡ true }
        ensures claimed { (inode : Inode) → inode.owners ≡ owners → weight Blocks inode ≡ blocks
            → IsClaimed self.now.books (Some result) (Some inode) }
        ensures blocks { result.weight.blocks ≡ blocks }
    {
        match self.owner_slots(request, owners) {
            Some(slots) => Claim::new(slots, blocks),
            None => unreachable!(),
        }
    }

    /// What an inode that is there takes.
    #[inline(always)]
    pub(super) fn claim_of(&self, request: &Request, number: u64, node: &Node) -> Claim
        requires can { CanDecide self.now request.now }
        requires there { inode_at self.now.state number ≡ Some (inode_of node.now) }
        ensures claimed { IsClaimed self.now.books (Some result) (Some (inode_of node.now)) }
        ensures blocks { result.weight.blocks ≡ weight Blocks (inode_of node.now) }
        ensures few { result.weight.blocks ≤ MAX_BLOCKS }
    {
        // Shows that the store holds its invariant, in which the inode's blocks are few. Nothing runs.
        let _ = &self.next;
        self.claim(request, node.owners, node.blocks())
    }

    /// Keeps the bill of a change that makes this exchange and gives N numbers, or refuses it.
    #[inline(always)]
    pub(super) fn admit(
        &mut self,
        request: &Request,
        exchange: &Exchange,
        given: u64,
    ) -> Result<(), Refusal>
        requires few { given ≤ 1 }
        requires asked { (S1 : State) × IsAsked self.old exchange.now given S1 }
        ensures same { IsSameStore self.old self.new }
        ensures room { self.new.room ≡ self.old.room }
        ensures granted { OnOk result (IsBilled self.old self.new.bill request.now exchange.now given) }
        ensures refused { IfErr result (IsUnbilled self.old request.now exchange.now given) }
    {
        let Request { cred, moment, .. } = *request;
        let Exchange { from, to } = *exchange;
        let next = self.next + given;
        self.accounts
            .bill(cred, moment, next, from, to, &mut self.bill)
    }

    /// Decides a change that passed its own tests and wants no room.
    #[inline(always)]
    pub(super) fn grant(
        &mut self,
        request: &Request,
        number: u64,
        exchange: &Exchange,
        change: TreeChange,
    ) -> Reply
        requires asked { IsAsked self.old exchange.now 0 (changed self.old.state change) }
        requires can { CanChange self.old.state self.old.room change }
        ensures { IsDecision self.old self.new request.now
            (Becomes (changed self.old.state change) number) (Ok result) }
    {
        match self.admit(request, exchange, 0) {
            Ok(()) => self.granted(number, exchange, change),
            Err(refusal) => self.refused(refusal),
        }
    }
}

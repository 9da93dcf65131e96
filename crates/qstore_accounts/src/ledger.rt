//! The quota records of one kind of principal, in the order of their ids.
ghost use Rattle.std.specs.Prelude.{◌≡◌, ℕ, ◌+◌, ◌≤◌, ◌<◌, ◌++◌, ◌==◌, List, length, map, IfOk, OnOk, IfSome};
ghost use Rattle.std.specs.Prelude.{is_some, Option, None, Some};
ghost use Rattle.std.specs.Option.{option_map};
ghost use Rattle.std.specs.List.{list_any, slice_get};
ghost use Rattle.std.specs.List.Sorted.{IsStrictlyIncreasing};
ghost use Rattle.qrules.specs.declared.kind.Kind.{Kind};
ghost use Rattle.qplain.specs.State.{Inode, State};
ghost use Rattle.qstore_accounts.specs.KeptHolders.{AreById, IsSlotOf};
ghost use Rattle.qstore_accounts.specs.Bills.{ArePlaced, IsPlaced, post, posted};
ghost use Rattle.qstore_accounts.specs.Boards.{board_row_of};
ghost use Rattle.qstore_accounts.specs.Ledgers.{ArePosted, AreTimesInRange, holder_row, IsFinal, IsHolderAt};
ghost use Rattle.qstore_accounts.specs.Ledgers.{IsLedgerReplacement, new_holder, posting_refusal};

use crate::bill::{Posting, Postings, clear};
use crate::claim::{OwnerClaim, apart, weight_at};
use crate::kept_holder::{KeptHolder, board_row, new_holder};
use crate::record_change::RecordChange;
use crate::times::Times;
use qplain::{NoMemory, Principal, Refusal};
use qrules::{BoardRow, Graces, Kind, Limits, MAX_GRACE, RecordRow};
use std::alloc::Global;
use std::marker::Model;

/// The kept holders of one kind, of whom no two have the same id. Contracts see them as a list by id.
#[derive(Drop)]
pub(crate) struct Ledger {
    holders: Vec<KeptHolder>,
}

impl Model for Ledger {
    ghost use Rattle.std.specs.Prelude.{List};
    ghost use Rattle.qstore_accounts.specs.declared.kept_holder.KeptHolder.{KeptHolder};

    ghost Value = { List KeptHolder };

    ghost view = { λ l. l.holders.items };

    ghost use Rattle.qstore_accounts.specs.KeptHolders.{AreById};

    ghost invariant = { λ l. AreById l.holders.items };
}

impl Ledger {
    /// The records of these principals in a new store.
    pub(crate) fn new(
        alloc: Global,
        principals: &[Principal],
        graces: Graces,
    ) -> Result<Ledger, NoMemory>
        requires by_id { IsStrictlyIncreasing (map (λ p. p.id) principals.now) }
        requires block_grace { graces.block ≤ MAX_GRACE }
        requires inode_grace { graces.inode ≤ MAX_GRACE }
        ensures { IfOk result (λ ledger. ledger ≡ map (new_holder graces) principals.now) }
    {
        let mut holders = Vec::with_capacity(alloc, principals.len())?;
        for principal in principals {
            holders.push(new_holder(alloc, principal, graces)?)?;
        }
        Ok(Ledger { holders })
    }

    /// These records.
    pub(crate) fn of(holders: Vec<KeptHolder>) -> Ledger
        requires { AreById holders.items }
        ensures { result ≡ holders.items }
    {
        Ledger { holders }
    }

    /// Where the kept holder of this id stands. O(log n).
    pub(crate) fn slot(&self, id: u32) -> Option<usize>
        ensures declared { is_some result ≡ list_any (λ o. id == o.id) self.now }
        ensures slot { IfSome result (λ slot. IsSlotOf self.now slot id) }
        ensures by_id { AreById self.now }
    {
        self.holders.binary_search_by_key(&id, |o| o.id).ok()
    }

    /// The kept holder of this id, if it is here. O(log n).
    pub(crate) fn find(&self, id: u32) -> Option<&KeptHolder>
        ensures declared { is_some result ≡ list_any (λ o. id == o.id) self.now }
        ensures there { IfSome result (λ o. (slot : ℕ) × IsHolderAt self.now slot id o.now) }
        ensures by_id { IfSome result (λ o. AreById self.now) }
    {
        match self.slot(id) {
            Some(slot) => Some(self.at(slot)),
            None => None,
        }
    }

    /// The kept holder at this slot.
    pub(crate) fn at(&self, slot: usize) -> &KeptHolder
        requires { slot < length self.now }
        ensures holder { slice_get self.now slot ≡ Some result.now }
        ensures by_id { AreById self.now }
    {
        &self.holders[slot]
    }

    /// The change of the record at this slot where one inode comes to stand in the place of another.
    #[inline(always)]
    fn posting(&self, slot: usize, from: Option<OwnerClaim>, to: Option<OwnerClaim>) -> Posting
        requires slot { slot < length self.now }
        requires replacement { (kind : Kind) × (S : State) × (S1 : State) × (f : Option Inode) × (t : Option Inode)
            × IsLedgerReplacement self.now kind from to S S1 f t }
        ensures posting { (kind : Kind) (S S1 : State) (f t : Option Inode)
            → IsLedgerReplacement self.now kind from to S S1 f t → IsFinal self.now kind S1 result }
        ensures slot { result.slot ≡ slot }
    {
        let holder = self.at(slot);
        let lost = weight_at(from, slot);
        let gained = weight_at(to, slot);
        let blocks = holder.account.blocks() + gained.blocks - lost.blocks;
        let inodes = holder.account.inodes() + gained.inodes - lost.inodes;
        Posting {
            slot,
            id: holder.id,
            change: RecordChange::Uses { blocks, inodes },
        }
    }

    /// Writes the same for the slot of a share, if there is one.
    #[inline(always)]
    fn write_posting(
        &self,
        share: Option<OwnerClaim>,
        from: Option<OwnerClaim>,
        to: Option<OwnerClaim>,
        posting: &mut Option<Posting>,
    )
        requires slot { IfSome share (λ s. s.slot < length self.now) }
        requires replacement { (kind : Kind) × (S : State) × (S1 : State) × (f : Option Inode) × (t : Option Inode)
            × IsLedgerReplacement self.now kind from to S S1 f t }
        ensures posting { (kind : Kind) (S S1 : State) (f t : Option Inode)
            → IsLedgerReplacement self.now kind from to S S1 f t → IfSome posting.new (IsFinal self.now kind S1) }
        ensures slot { option_map (λ p. p.slot) posting.new ≡ option_map (λ s. s.slot) share }
    {
        match share {
            Some(share) => *posting = Some(self.posting(share.slot, from, to)),
            None => clear(posting),
        }
    }

    /// Writes the changes of both owners' records where one inode comes to stand in the place of another; one change
    /// where both have the same record, and none where names alone change.
    #[inline(always)]
    pub(crate) fn write_postings(
        &self,
        from: Option<OwnerClaim>,
        to: Option<OwnerClaim>,
        postings: &mut Postings,
    )
        requires { (kind : Kind) × (S : State) × (S1 : State) × (f : Option Inode) × (t : Option Inode)
            × IsLedgerReplacement self.now kind from to S S1 f t }
        ensures { (kind : Kind) (S S1 : State) (f t : Option Inode)
            → IsLedgerReplacement self.now kind from to S S1 f t → ArePosted self.now kind S1 from to postings.new }
    {
        if from.is_none() && to.is_none() {
            postings.clear();
            return;
        }
        let lost = apart(from, to);
        self.write_posting(lost, from, to, &mut postings.from);
        self.write_posting(to, from, to, &mut postings.to);
    }

    /// New limits for the record at this slot.
    pub(crate) fn relimited(&self, slot: usize, limits: Limits) -> Posting
        requires { slot < length self.now }
        ensures { IfSome (slice_get self.now slot) (λ o. result
            ≡ record { slot = slot; id = o.id; change = RecordChange.Limits limits }) }
    {
        Posting {
            slot,
            id: self.at(slot).id,
            change: RecordChange::Limits(limits),
        }
    }

    /// Why the record may not change as this posting says, if it may not.
    #[inline(always)]
    pub(crate) fn refusal(
        &self,
        kind: Kind,
        moment: u64,
        posting: &Option<Posting>,
    ) -> Option<Refusal>
        requires { IsPlaced self.now posting.now }
        ensures { result ≡ posting_refusal self.now kind moment posting.now }
    {
        match posting {
            Some(posting) => self.at(posting.slot).refusal(kind, moment, &posting.change),
            None => None,
        }
    }

    /// Changes a record where it stands.
    #[inline(always)]
    fn post(&mut self, posting: &Option<Posting>, times: Times)
        requires placed { IsPlaced self.old posting.now }
        requires times { AreTimesInRange times.graces times.moment }
        ensures { self.new ≡ map (post times.graces times.moment posting.now) self.old }
    {
        match posting {
            Some(posting) => {
                let account = &mut self.holders[posting.slot].account;
                posting.change.make(account, times);
            }
            None => {}
        }
    }

    /// Changes both records of the postings where they stand.
    #[inline(always)]
    pub(crate) fn settle(&mut self, postings: &Postings, times: Times)
        requires placed { ArePlaced self.old postings.now }
        requires times { AreTimesInRange times.graces times.moment }
        ensures { self.new ≡ map (posted times.graces times.moment postings.now) self.old }
    {
        self.post(&postings.from, times);
        self.post(&postings.to, times);
    }

    /// Appends the rows of these records.
    pub(crate) fn push_rows(
        &self,
        alloc: Global,
        kind: Kind,
        rows: &mut Vec<RecordRow>,
    ) -> Result<(), NoMemory>
        ensures rows { OnOk result (rows.new.items ≡ rows.old.items ++ map (holder_row kind) self.now) }
        ensures by_id { OnOk result (AreById self.now) }
    {
        for holder in &self.holders {
            rows.push(holder.row(alloc, kind)?)?;
        }
        Ok(())
    }

    /// Appends the rows of these records as a board shows them.
    pub(crate) fn push_board_rows(
        &self,
        kind: Kind,
        rows: &mut Vec<BoardRow>,
    ) -> Result<(), NoMemory>
        ensures { OnOk result (rows.new.items ≡ rows.old.items ++ map (board_row_of kind) self.now) }
    {
        for holder in &self.holders {
            rows.push(board_row(kind, holder.id, &holder.account))?;
        }
        Ok(())
    }

    /// How many they are.
    pub(crate) fn len(&self) -> usize
        ensures { result ≡ length self.now }
    {
        self.holders.len()
    }
}

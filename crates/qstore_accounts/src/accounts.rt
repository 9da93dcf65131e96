//! The accounts of a store: its records, its totals, its bounds and its graces.
ghost use Rattle.std.specs.Prelude.{◌≡◌, ℕ, ◌+◌, ◌≤◌, ◌||◌, ◌==◌, length, nat_lt, map, None, Some, Option, IfOk, IfErr};
ghost use Rattle.std.specs.Prelude.{OnOk, IfSome, is_some, option_copied, true};
ghost use Rattle.std.specs.Option.{option_map, option_or};
ghost use Rattle.std.specs.List.{AllPairs, find};
ghost use Rattle.qrules.specs.declared.kind.Kind.{Kind};
ghost use Rattle.qrules.specs.declared.kind.Kind.TheVariants.{User, Group, Project};
ghost use Rattle.qrules.specs.Range.{are_graces_in_range};
ghost use Rattle.qplain.specs.State.{Inode, State, start};
ghost use Rattle.qplain.specs.Known.{is_declared, is_holder};
ghost use Rattle.qplain.specs.Quotas.{with_limits_of};
ghost use Rattle.qplain.specs.Decision.{ends_after, refusal_between};
ghost use Rattle.qplain_laws.specs.Laws.{IsLawful};
ghost use Rattle.qstore_accounts.specs.KeptHolders.{IsCountedIn, IsSlotOf, holder_in};
ghost use Rattle.qstore_accounts.specs.Books.{AreBooksOf, AreInRange, ledger_in};
ghost use Rattle.qstore_accounts.specs.Bills.{IsBillFor, only_in, postings_in, settled};
ghost use Rattle.qstore_accounts.specs.Replacements.{IsReplacement};
ghost use Rattle.qstore_accounts.specs.Ledgers.{posting_refusal};
ghost use Rattle.qstore_accounts.specs.Decisions.{bill_refusal, IsBillOf};
ghost use Rattle.qstore_accounts.specs.Rows.{StandsBefore, record_row_of};

use crate::bill::{Bill, Posting};
use crate::claim::{Claim, share_of, weight_of};
use crate::kept_holder::KeptHolder;
use crate::known_callers::KnownCallers;
use crate::ledger::Ledger;
use crate::times::Times;
pub use parts::Parts;
use qplain::{Cred, MAX_NUMBER, NoMemory, Refusal, Setup};
use qrules::{Graces, Kind, Limits, MAX_MOMENT, RecordRow};
use std::alloc::Global;
use std::marker::Model;

mod boards;
mod bounds;
mod callers;
mod parts;

/// The quota records of users, groups and projects, the totals, the bounds and the graces. Contracts see them as books.
///
/// Blocks are of 4096 bytes. Nothing is recounted: what a call makes of the records and the totals is its bill, which
/// is asked for first and settled then.
#[derive(Drop)]
pub struct Accounts {
    size: u64,
    most_inodes: u64,
    graces: Graces,
    users: Ledger,
    groups: Ledger,
    projects: Ledger,
    blocks: u64,
    inodes: u64,
    known: KnownCallers,
}

impl Model for Accounts {
    ghost use Rattle.qstore_accounts.specs.Books.{Books};

    ghost Value = { Books };

    ghost use Rattle.qstore_accounts.specs.Kept.{books_of};

    ghost view = { books_of };

    ghost use Rattle.qstore_accounts.specs.Books.{AreInRange};
    ghost use Rattle.qstore_accounts.specs.Callers.{AreKnown};

    ghost invariant = { λ a. AreInRange (books_of a) × AreKnown (books_of a) a.known };
}

impl Accounts {
    /// The accounts of a new store, in which user 0, group 0 and, where projects are declared, project 0 have the
    /// root directory. An Err leaves nothing made.
    pub fn new(alloc: Global, setup: &Setup) -> Result<Accounts, NoMemory>
        ensures books { IfOk result (AreBooksOf (start setup.now)) }
        ensures in_range { IfOk result AreInRange }
    {
        let graces = setup.graces();
        let users = Ledger::new(alloc, setup.users(), graces)?;
        let groups = Ledger::new(alloc, setup.groups(), graces)?;
        let projects = Ledger::new(alloc, setup.projects(), graces)?;
        let known = KnownCallers::new(alloc)?;
        Ok(Accounts {
            size: setup.blocks(),
            most_inodes: setup.inodes(),
            graces,
            users,
            groups,
            projects,
            blocks: 0,
            inodes: 1,
            known,
        })
    }

    /// The allocated blocks. O(1).
    pub fn blocks(&self) -> u64
        ensures { result ≡ self.now.blocks }
    {
        self.blocks
    }

    /// The inodes, the root among them. O(1).
    pub fn inodes(&self) -> u64
        ensures { result ≡ self.now.inodes }
    {
        self.inodes
    }

    /// Whether no project is declared. O(1).
    pub fn has_no_projects(&self) -> bool
        ensures { result ≡ (length (ledger_in Project self.now) == 0) }
    {
        self.projects.len() == 0
    }

    /// The records of a kind.
    fn ledger(&self, kind: Kind) -> &Ledger
        ensures { result.now ≡ ledger_in kind self.now }
    {
        match kind {
            Kind::User => &self.users,
            Kind::Group => &self.groups,
            Kind::Project => &self.projects,
        }
    }

    /// Where the record of this kind and id stands, if it is declared. O(log n), as many as are declared.
    pub fn slot(&self, kind: Kind, id: u32) -> Option<usize>
        ensures declared { (S : State) → AreBooksOf S self.now → is_some result ≡ is_declared S kind id }
        ensures slot { IfSome result (λ slot. IsSlotOf (ledger_in kind self.now) slot id) }
    {
        self.ledger(kind).slot(id)
    }

    /// The kept holder of this kind and id, if it is declared. O(log n), as many as are declared.
    pub fn find(&self, kind: Kind, id: u32) -> Option<&KeptHolder>
        ensures found { (S : State) → AreBooksOf S self.now
            → option_map (holder_in kind) (option_copied result) ≡ find (is_holder kind id) S.holders }
        ensures counted { (S : State) → AreBooksOf S self.now → IfSome result (λ o. IsCountedIn S kind o.now) }
    {
        self.ledger(kind).find(id)
    }

    /// Writes the bill of a call by which the inode of one claim comes to stand in the place of the other's, or tells
    /// why the call is refused: space comes before quota, and the superuser passes every quota. `next` is the number
    /// that would be given next after it.
    #[inline(always)]
    pub fn bill(
        &self,
        cred: &Cred,
        moment: u64,
        next: u64,
        from: Option<Claim>,
        to: Option<Claim>,
        bill: &mut Bill,
    ) -> Result<(), Refusal>
        requires moment { moment ≤ MAX_MOMENT }
        requires replacement { (S : State) × (S1 : State) × (f : Option Inode) × (t : Option Inode)
            × IsReplacement self.now from to S S1 f t }
        ensures granted { OnOk result ((S S1 : State) (f t : Option Inode)
            → IsReplacement self.now from to S S1 f t → S1.next ≡ next
            → (refusal_between S S1 cred.now moment ≡ None)
            × AreBooksOf (ends_after S1 moment) (settled bill.new self.now)) }
        ensures placed { OnOk result (IsBillFor self.now bill.new) }
        ensures refused { IfErr result (λ refusal. (S S1 : State) (f t : Option Inode)
            → IsReplacement self.now from to S S1 f t → S1.next ≡ next
            → refusal_between S S1 cred.now moment ≡ Some refusal) }
    {
        self.write_bill(moment, from, to, bill);
        match self.refusal(cred, moment, next, bill) {
            Some(refusal) => Err(refusal),
            None => Ok(()),
        }
    }

    /// Writes how the records change, and the totals as they will be. It tests nothing.
    #[inline(always)]
    fn write_bill(&self, moment: u64, from: Option<Claim>, to: Option<Claim>, bill: &mut Bill)
        requires { (S : State) × (S1 : State) × (f : Option Inode) × (t : Option Inode)
            × IsReplacement self.now from to S S1 f t }
        ensures bill { (S S1 : State) (f t : Option Inode)
            → IsReplacement self.now from to S S1 f t → IsBillOf self.now from to S S1 moment bill.new }
        ensures in_range { AreInRange self.now }
    {
        let (lost, gained) = (weight_of(from), weight_of(to));
        let (user, next_user) = (share_of(Kind::User, from), share_of(Kind::User, to));
        let (group, next_group) = (share_of(Kind::Group, from), share_of(Kind::Group, to));
        let (project, next_project) = (share_of(Kind::Project, from), share_of(Kind::Project, to));
        self.users.write_postings(user, next_user, &mut bill.users);
        self.groups
            .write_postings(group, next_group, &mut bill.groups);
        self.projects
            .write_postings(project, next_project, &mut bill.projects);
        bill.blocks = self.blocks + gained.blocks - lost.blocks;
        bill.inodes = self.inodes + gained.inodes - lost.inodes;
        bill.moment = moment;
    }

    /// Whether the bill is past the bounds, or past the last number.
    #[inline(always)]
    fn is_full(&self, next: u64, bill: &Bill) -> bool
        ensures { result ≡ (nat_lt self.now.size bill.now.blocks || nat_lt self.now.most_inodes bill.now.inodes
            || nat_lt (MAX_NUMBER + 1) next) }
    {
        bill.blocks > self.size || bill.inodes > self.most_inodes || next > MAX_NUMBER + 1
    }

    /// The first limit in the way of a bill: the user's, or else the group's, or else the project's.
    #[inline(always)]
    fn fault(&self, moment: u64, bill: &Bill) -> Option<Refusal>
        requires placed { IsBillFor self.now bill.now }
        ensures { result ≡ option_or (posting_refusal self.now.users User moment bill.now.users.to)
            (option_or (posting_refusal self.now.groups Group moment bill.now.groups.to)
            (posting_refusal self.now.projects Project moment bill.now.projects.to)) }
    {
        match self.users.refusal(Kind::User, moment, &bill.users.to) {
            Some(refusal) => Some(refusal),
            None => self.later_fault(moment, bill),
        }
    }

    /// The same of the kinds that are tested after the users.
    #[inline(always)]
    fn later_fault(&self, moment: u64, bill: &Bill) -> Option<Refusal>
        requires placed { IsBillFor self.now bill.now }
        ensures { result ≡ option_or (posting_refusal self.now.groups Group moment bill.now.groups.to)
            (posting_refusal self.now.projects Project moment bill.now.projects.to) }
    {
        let (group, project) = (&bill.groups.to, &bill.projects.to);
        match self.groups.refusal(Kind::Group, moment, group) {
            Some(refusal) => Some(refusal),
            None => self.projects.refusal(Kind::Project, moment, project),
        }
    }

    /// Why a bill is refused, if it is.
    #[inline(always)]
    fn refusal(&self, cred: &Cred, moment: u64, next: u64, bill: &Bill) -> Option<Refusal>
        requires placed { IsBillFor self.now bill.now }
        ensures { result ≡ bill_refusal self.now cred.now moment next bill.now }
    {
        if self.is_full(next, bill) {
            return Some(Refusal::ENOSPC);
        }
        if cred.uid() == 0 {
            return None;
        }
        self.fault(moment, bill)
    }

    /// Writes the bill of new limits for the record at this slot. It is granted always, and leaves the totals.
    pub fn bill_of_limits(
        &self,
        kind: Kind,
        slot: usize,
        limits: Limits,
        moment: u64,
        bill: &mut Bill,
    )
        requires slot { (id : ℕ) × IsSlotOf (ledger_in kind self.now) slot id }
        requires moment { moment ≤ MAX_MOMENT }
        ensures books { (S : State) (id : ℕ) → IsSlotOf (ledger_in kind self.now) slot id
            → IsLawful S → AreBooksOf S self.now
            → AreBooksOf (ends_after (with_limits_of S kind id limits) moment) (settled bill.new self.now) }
        ensures placed { IsBillFor self.now bill.new }
    {
        let posting = self.ledger(kind).relimited(slot, limits);
        self.write_only(kind, posting, moment, bill);
    }

    /// Writes a bill that leaves the totals and all records but one.
    #[inline(always)]
    fn write_only(&self, kind: Kind, posting: Posting, moment: u64, bill: &mut Bill)
        ensures postings { (other : Kind) → postings_in other bill.new ≡ only_in kind posting other }
        ensures blocks { bill.new.blocks ≡ self.now.blocks }
        ensures inodes { bill.new.inodes ≡ self.now.inodes }
        ensures moment { bill.new.moment ≡ moment }
    {
        bill.users.clear();
        bill.groups.clear();
        bill.projects.clear();
        bill.blocks = self.blocks;
        bill.inodes = self.inodes;
        bill.moment = moment;
        match kind {
            Kind::User => bill.users.to = Some(posting),
            Kind::Group => bill.groups.to = Some(posting),
            Kind::Project => bill.projects.to = Some(posting),
        }
    }

    /// Makes the changes of a bill where the records stand, and puts its totals in their places. It takes no memory and
    /// always succeeds.
    #[inline(always)]
    pub fn settle(&mut self, bill: &Bill)
        requires { IsBillFor self.old bill.now }
        ensures { self.new ≡ settled bill.now self.old }
    {
        let times = Times {
            graces: self.graces,
            moment: bill.moment,
        };
        self.users.settle(&bill.users, times);
        self.groups.settle(&bill.groups, times);
        self.projects.settle(&bill.projects, times);
        self.blocks = bill.blocks;
        self.inodes = bill.inodes;
    }

    /// Sets the graces. No end that stands moves.
    pub fn set_graces(&mut self, graces: Graces)
        requires { are_graces_in_range graces ≡ true }
        ensures { self.new ≡ record self.old { graces = graces } }
    {
        self.graces = graces;
    }

    /// The rows of the records: users by id, then groups, then projects. O(n), as many as are declared.
    pub fn rows(&self, alloc: Global) -> Result<Vec<RecordRow>, NoMemory>
        ensures rows { IfOk result (λ rows. (S : State) → AreBooksOf S self.now
            → rows.items ≡ map (record_row_of S) S.holders) }
        ensures by_id { OnOk result ((S : State) → AreBooksOf S self.now → AllPairs StandsBefore S.holders) }
    {
        let mut rows = Vec::new(alloc);
        self.users.push_rows(alloc, Kind::User, &mut rows)?;
        self.groups.push_rows(alloc, Kind::Group, &mut rows)?;
        self.projects.push_rows(alloc, Kind::Project, &mut rows)?;
        Ok(rows)
    }
}

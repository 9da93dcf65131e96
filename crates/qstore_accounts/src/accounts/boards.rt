//! What boards show of the accounts, and what a bill does to them.
ghost use Rattle.std.specs.Prelude.{◌≡◌, ◌≤◌, ◌<◌, ◌+◌, ◌^◌, ◌++◌, List, length, vec_len, vec_capacity, IfOk};
ghost use Rattle.qplain.specs.declared.placed_row.PlacedRow.{PlacedRow};
ghost use Rattle.qplain.specs.State.{State};
ghost use Rattle.qplain.specs.Boards.{rows_of};
ghost use Rattle.qstore_accounts.specs.Books.{AreBooksOf};
ghost use Rattle.qstore_accounts.specs.Bills.{ArePlaced, IsBillFor, IsPlaced, settled};
ghost use Rattle.qstore_accounts.specs.Boards.{ArePut, IsPut};
ghost use Rattle.qstore_accounts.specs.Ledgers.{AreTimesInRange};
ghost use Rattle.qstore_accounts.specs.Pushed.{IsPushed};

use crate::accounts::Accounts;
use crate::bill::{Bill, Posting, Postings};
use crate::kept_holder::board_row;
use crate::ledger::Ledger;
use crate::times::Times;
use qplain::{MAX_CHANGED_ROWS, NoMemory, PlacedRow};
use qrules::{BoardRow, Kind};
use std::alloc::Global;

/// Puts the row of a posting's record, as the posting leaves it, in its place, after N rows of others, after these
/// rows, if there is a posting and it changes the record.
fn push_changed(
    ledger: &Ledger,
    kind: Kind,
    before: usize,
    posting: &Option<Posting>,
    times: Times,
    rows: &mut Vec<PlacedRow>,
)
    requires placed { IsPlaced ledger.now posting.now }
    requires times { AreTimesInRange times.graces times.moment }
    requires place { before + length ledger.now < 2 ^ 64 }
    requires room { vec_len rows.old < vec_capacity rows.old }
    ensures rows { (placed : List PlacedRow) × (rows.new.items ≡ rows.old.items ++ placed)
        × IsPut ledger.now kind before times.graces times.moment posting.now placed }
    ensures room { (vec_len rows.new ≤ vec_len rows.old + 1) × (vec_capacity rows.new ≡ vec_capacity rows.old) }
{
    if let Some(posting) = posting {
        let old = ledger.at(posting.slot).account;
        let mut new = old;
        posting.change.make(&mut new, times);
        if old != new {
            rows.push_reserved(PlacedRow {
                place: before + posting.slot,
                row: board_row(kind, posting.id, &new),
            });
        }
    }
}

/// Puts the rows that the postings of a kind change after these rows.
fn push_changes(
    ledger: &Ledger,
    kind: Kind,
    before: usize,
    postings: &Postings,
    times: Times,
    rows: &mut Vec<PlacedRow>,
)
    requires placed { ArePlaced ledger.now postings.now }
    requires times { AreTimesInRange times.graces times.moment }
    requires place { before + length ledger.now < 2 ^ 64 }
    requires room { vec_len rows.old + 2 ≤ vec_capacity rows.old }
    ensures rows { (placed : List PlacedRow) × (rows.new.items ≡ rows.old.items ++ placed)
        × ArePut ledger.now kind before times.graces times.moment postings.now placed }
    ensures room { (vec_len rows.new ≤ vec_len rows.old + 2) × (vec_capacity rows.new ≡ vec_capacity rows.old) }
{
    push_changed(ledger, kind, before, &postings.from, times, rows);
    push_changed(ledger, kind, before, &postings.to, times, rows);
}

impl Accounts {
    /// The rows of a board: users by id, then groups, then projects. O(n), as many as are declared.
    pub fn board_rows(&self, alloc: Global) -> Result<Vec<BoardRow>, NoMemory>
        ensures { IfOk result (λ rows. (S : State) → AreBooksOf S self.now → rows.items ≡ rows_of S) }
    {
        let mut rows = Vec::new(alloc);
        self.users.push_board_rows(Kind::User, &mut rows)?;
        self.groups.push_board_rows(Kind::Group, &mut rows)?;
        self.projects.push_board_rows(Kind::Project, &mut rows)?;
        Ok(rows)
    }

    /// Puts the rows that a bill changes on a board after others, where there is room for all that may be. O(1).
    pub fn push_changed_rows(&self, bill: &Bill, rows: &mut Vec<PlacedRow>)
        requires placed { IsBillFor self.now bill.now }
        requires room { vec_len rows.old + MAX_CHANGED_ROWS ≤ vec_capacity rows.old }
        ensures { (S S1 : State) → AreBooksOf S self.now → AreBooksOf S1 (settled bill.now self.now)
            → IsPushed S rows.old.items rows.new.items S1 }
    {
        let times = Times {
            graces: self.graces,
            moment: bill.moment,
        };
        let users = self.users.len();
        let groups = users + self.groups.len();
        push_changes(&self.users, Kind::User, 0, &bill.users, times, rows);
        push_changes(&self.groups, Kind::Group, users, &bill.groups, times, rows);
        push_changes(
            &self.projects,
            Kind::Project,
            groups,
            &bill.projects,
            times,
            rows,
        );
    }
}

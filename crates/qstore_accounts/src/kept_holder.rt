//! A principal as a store keeps it.
ghost use Rattle.std.specs.Prelude.{◌≡◌, ◌==◌, ◌≤◌, if◌then◌else◌, IfOk};
ghost use Rattle.qrules.specs.Grace.{unused, with_ends};
ghost use Rattle.std.specs.Option.{option_map};
ghost use Rattle.qstore_accounts.specs.Bills.{IsCountable};
ghost use Rattle.qstore_accounts.specs.Boards.{board_row};
ghost use Rattle.qstore_accounts.specs.Ledgers.{fault_of_change, holder_row, new_holder};

use crate::record_change::RecordChange;
use qplain::{NoMemory, Principal, Quota, Refusal};
use qrules::{BoardRow, Graces, Kind, Limits, MAX_GRACE, PrincipalName, Record, RecordRow};
use std::alloc::Global;

/// A principal, with its quota record.
#[derive(Drop)]
pub struct KeptHolder {
    pub id: u32,
    pub name: PrincipalName,
    pub account: Record,
}

/// The record of a principal in a new store: id 0 has the root directory.
fn new_account(id: u32, limits: Limits, graces: Graces) -> Record
    requires block_grace { graces.block ≤ MAX_GRACE }
    requires inode_grace { graces.inode ≤ MAX_GRACE }
    ensures { result ≡ (if 0 == id then with_ends (record (unused limits) { inodes = 1 }) graces 0 else unused limits) }
{
    let mut record = Record::new(limits);
    if 0 == id {
        record.set_uses(0, 1, graces, 0);
    }
    record
}

/// The kept holder of a declared principal in a new store.
pub(crate) fn new_holder(
    alloc: Global,
    principal: &Principal,
    graces: Graces,
) -> Result<KeptHolder, NoMemory>
    requires block_grace { graces.block ≤ MAX_GRACE }
    requires inode_grace { graces.inode ≤ MAX_GRACE }
    ensures { IfOk result (λ holder. holder ≡ new_holder graces principal.now) }
{
    let text = String::from_str(alloc, principal.name.as_str())?;
    Ok(KeptHolder {
        id: principal.id,
        name: PrincipalName::new(text),
        account: new_account(principal.id, principal.limits, graces),
    })
}

/// The row of a record as a board shows it.
pub(crate) fn board_row(kind: Kind, id: u32, account: &Record) -> BoardRow
    ensures { result ≡ board_row kind id account.now }
{
    BoardRow {
        kind,
        id,
        blocks: account.blocks(),
        inodes: account.inodes(),
        limits: account.limits(),
        block_end: account.block_end(),
        inode_end: account.inode_end(),
    }
}

impl KeptHolder {
    /// What its record holds.
    pub fn quota(&self) -> Quota
        ensures { result ≡ record {
          blocks = self.now.account.blocks;
          inodes = self.now.account.inodes;
          limits = self.now.account.limits;
          block_end = self.now.account.block_end;
          inode_end = self.now.account.inode_end;
        } }
    {
        let account = &self.account;
        Quota {
            blocks: account.blocks(),
            inodes: account.inodes(),
            limits: account.limits(),
            block_end: account.block_end(),
            inode_end: account.inode_end(),
        }
    }

    /// The row of this record.
    pub(crate) fn row(&self, alloc: Global, kind: Kind) -> Result<RecordRow, NoMemory>
        ensures { IfOk result (λ row. row ≡ holder_row kind self.now) }
    {
        let text = String::from_str(alloc, self.name.as_str())?;
        let row = board_row(kind, self.id, &self.account);
        Ok(RecordRow {
            kind,
            id: row.id,
            name: PrincipalName::new(text),
            blocks: row.blocks,
            inodes: row.inodes,
            limits: row.limits,
            block_end: row.block_end,
            inode_end: row.inode_end,
        })
    }

    /// Why the record may not change so, if it may not: the first limit in the way of its uses. None is in the way of
    /// new limits.
    pub(crate) fn refusal(&self, kind: Kind, moment: u64, change: &RecordChange) -> Option<Refusal>
        requires { IsCountable change.now }
        ensures { result ≡ option_map (λ over. Refusal.EDQUOT kind over)
            (fault_of_change self.now.account moment change.now) }
    {
        let RecordChange::Uses { blocks, inodes } = *change else {
            return None;
        };
        match self.account.test_uses(moment, blocks, inodes) {
            Ok(()) => None,
            Err(over) => Some(Refusal::EDQUOT(kind, over)),
        }
    }
}

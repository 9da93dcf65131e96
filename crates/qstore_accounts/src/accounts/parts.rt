//! What accounts are made of that are opened, and do not begin with a setup.
ghost use Rattle.std.specs.Prelude.{◌≡◌, IfOk};
ghost use Rattle.qstore_accounts.specs.Books.{AreInRange};
ghost use Rattle.qstore_accounts.specs.Parts.{books_in};

use crate::accounts::Accounts;
use crate::kept_holder::KeptHolder;
use crate::known_callers::KnownCallers;
use crate::ledger::Ledger;
use qplain::NoMemory;
use qrules::Graces;
use std::alloc::Global;

/// The bounds and the totals, in blocks of 4096 bytes and in inodes, the graces, in seconds, and the records of each
/// kind in the order of their ids.
#[derive(Drop)]
pub struct Parts {
    pub size: u64,
    pub most_inodes: u64,
    pub graces: Graces,
    pub users: Vec<KeptHolder>,
    pub groups: Vec<KeptHolder>,
    pub projects: Vec<KeptHolder>,
    pub blocks: u64,
    pub inodes: u64,
}

impl Accounts {
    /// The accounts of these parts, of which nothing is recounted. An Err drops the parts. O(1).
    pub fn of_parts(alloc: Global, parts: Parts) -> Result<Accounts, NoMemory>
        requires { AreInRange (books_in parts) }
        ensures { IfOk result (λ accounts. accounts ≡ books_in parts) }
    {
        Ok(Accounts {
            size: parts.size,
            most_inodes: parts.most_inodes,
            graces: parts.graces,
            users: Ledger::of(parts.users),
            groups: Ledger::of(parts.groups),
            projects: Ledger::of(parts.projects),
            blocks: parts.blocks,
            inodes: parts.inodes,
            known: KnownCallers::new(alloc)?,
        })
    }
}

//! A store of its parts, which do not begin with a setup.
ghost use Rattle.std.specs.Prelude.{◌≡◌};
ghost use Rattle.qstore.specs.Parts.{AreParts, state_of_parts};

use crate::{Plan, Store};
use qstore_accounts::{Accounts, Bill};
use qstore_tree::Tree;
use std::alloc::Global;

impl Store {
    /// A store of accounts and a tree that belong together, as a recount has shown. A file has at most this many bytes,
    /// and the next new inode gets this number. It takes no memory and always succeeds. O(1).
    pub fn of_parts(
        alloc: Global,
        file_limit: u64,
        accounts: Accounts,
        tree: Tree,
        next: u64,
    ) -> Store
        requires { AreParts file_limit accounts tree next }
        ensures { result.state ≡ state_of_parts file_limit accounts tree next }
    {
        Store {
            alloc,
            file_limit,
            accounts,
            tree,
            next,
            bill: Bill::empty(),
            plan: Plan::Nothing,
        }
    }
}

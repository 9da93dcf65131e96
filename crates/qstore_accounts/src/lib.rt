//! The accounts of a store: the quota records of its users, groups and projects, and its totals, kept and never
//! recounted.
#![tactic(auto)]

pub use accounts::{Accounts, Parts};
pub use bill::{Bill, Posting, Postings};
pub use claim::{Claim, Slots, Weight, change_of};
pub use kept_holder::KeptHolder;
pub use opened::opened_account;
pub use record_change::RecordChange;

mod accounts;
mod bill;
mod claim;
mod kept_holder;
mod known_callers;
mod ledger;
mod opened;
mod record_change;
mod times;

//! The plain values of calls and replies, and the plain machine that the store is checked against.
#![tactic(auto)]

pub use board::Board;
pub use bounds::{
    FILE_LIMIT, MAX_DATA, MAX_ENTRIES, MAX_LINES, MAX_LINKS, MAX_NAME, MAX_NUMBER, MAX_PATH,
    MAX_WORKERS, OLD_FILE_LIMIT, OLD_MAX_ENTRIES, ROOT,
};
pub use call::{Call, CallPaths};
pub use call_fault::CallFault;
pub use change::{Change, NO_CHANGE};
pub use cred::{Cred, MAX_MORE_GROUPS};
pub use edition::Edition;
pub use entry::Entry;
pub use journal::Journal;
pub use line::Line;
pub use look_fault::LookFault;
pub use owners::Owners;
pub use path::{Path, are_path_bytes};
pub use placed_row::{MAX_CHANGED_ROWS, PlacedRow};
pub use principal::{MAX_PRINCIPALS, Principal, is_principal_name};
pub use qblocks::{Data, NoMemory, SharedItems};
pub use quota::Quota;
pub use receipt::Receipt;
pub use receipt_form::ReceiptForm;
pub use refusal::Refusal;
pub use reply::Reply;
pub use script::Script;
pub use setup::{MAX_BLOCKS, MAX_INODES, Setup, SetupFault};
pub use stat::Stat;
pub use tallies::Tallies;
pub use transcript::Transcript;

mod board;
mod bounds;
mod call;
mod call_fault;
mod change;
mod cred;
mod edition;
mod entry;
mod journal;
mod line;
mod look_fault;
mod owners;
mod path;
mod placed_row;
mod principal;
mod quota;
mod receipt;
mod receipt_form;
mod refusal;
mod reply;
mod script;
mod setup;
mod stat;
mod tallies;
mod transcript;

//! The recount of any rows, its differences from the records, and the texts of reports and audits.
#![tactic(auto)]

pub use audit_text::put_audit;
pub use comparison::compare;
pub use counts::{CountRow, Counts, LinkRow};
pub use difference::Difference;
pub use recounts::recount;
pub use reports::{ReportFault, put_report, report};
pub use std::alloc::AllocError as NoMemory;

mod audit_text;
mod comparison;
mod counts;
mod difference;
mod links;
mod numbers;
mod owners;
mod recounts;
mod reports;
mod tallies;

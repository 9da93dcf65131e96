//! What a session tells and is told in texts: configurations, lines, reports, audits and journals.
#![tactic(auto)]

pub use audit::tell_audit;
pub use journal::{tell_journal, tell_tally};
pub use line::answer_line;
pub use opening::{keep, tell_config_fault};
pub use report::tell_report;

mod audit;
mod buffer;
mod journal;
mod line;
mod opening;
mod report;

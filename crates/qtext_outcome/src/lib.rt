//! Outcomes of runs as text: transcripts, boards, the quota report, the totals, the tallies and the audit.
#![tactic(auto)]

pub use boards_text::look_fault_word;
pub use called_text::repeated;
pub use denials::{are_all_done, put_denials};
pub use moments::report_moment;
pub use outcome_text::{put_left, put_outcome, write_outcome};
pub use qtext_write::WriteFault;
pub use shown::Shown;
pub use shown_report::{is_over, is_over_any, kib_of};
pub use shown_text::put_shown;

mod boards_text;
mod called_text;
mod counts;
mod denials;
mod moments;
mod outcome_text;
mod shown;
mod shown_report;
mod shown_text;
mod transcript_text;
mod units;

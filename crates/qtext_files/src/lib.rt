//! Scripts and journals as text, read and written.
#![tactic(auto)]

pub use from_text::FromText;
pub use head::{edition_of, head_keyword};
pub use journal_text::{put_journal, put_segment, write_journal};
pub use line::read_line;
pub use qtext_write::WriteFault;
pub use raw_line::{NextLine, next_line};
pub use segment::Segment;

mod callers;
mod entry;
mod from_text;
mod head;
mod journal;
mod journal_text;
mod line;
mod lines;
mod placed;
mod raw_line;
mod script;
mod segment;

//! Files by name, and what came of a run or of a service, written to them.
#![tactic(auto)]

pub use board_file::{BoardFile, ShownBoards};
pub use files::{FileFault, Files, NamedStreams};
pub use finishing::{OutcomeText, Refuser, SavedNames, finish_outcome};
pub use overwriting::{Overwritten, test_written};

mod board_file;
mod counted_board;
mod files;
mod finishing;
mod overwriting;
mod saving;
mod seen_counts;

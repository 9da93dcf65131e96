//! Outcomes of runs and of replays, and journals played again.
#![tactic(auto)]

pub use answered::Answered;
pub use failed_line::FailedLine;
pub use outcome::{Outcome, outcome_of};
pub use placed::PlacedTranscript;
pub use placed_line::PlacedLine;
pub use placed_reply::PlacedReply;
pub use places::Places;
pub use replay_fault::ReplayFault;
pub use replays::{replay, replay_on};
pub use shared_journal::SharedJournal;

mod answered;
mod failed_line;
mod outcome;
mod placed;
mod placed_line;
mod placed_reply;
mod places;
mod replay_fault;
mod replays;
mod shared_journal;

//! Runs and replays under a configuration.
#![tactic(auto)]

pub use replicas::hosts_agree;
pub use runs::{check_boards, replay, run, run_with};
pub use script_reader::{ScriptFault, ScriptReader, finish_all};
pub use text_replay::{TextReplayFault, replay_text};

mod replicas;
mod runs;
mod script_reader;
mod text_replay;

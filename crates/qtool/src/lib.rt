//! From bytes to bytes: the whole program over any files and writers, and the names that it is made of.
#![tactic(auto)]

pub use program::tool;
pub use qaudit::report;
pub use qaudit_checks::{BoardFault, Mismatch, gather};
pub use qplain::{
    Board, CallFault, Edition, Entry, Journal, Line, LookFault, MAX_LINES, Receipt, Script, Setup,
    Transcript,
};
pub use qrun::{
    Gate, Machine, Monitor, NoGate, Options, RunFault, Service, WorkerEnd, conclude, serve,
};
pub use qrun_client::{Answer, Client, ClientEnd};
pub use qrun_replay::{Outcome, PlacedReply, PlacedTranscript, ReplayFault};
pub use qstore::Store;
pub use qtext::{ReportMoment, Telling, TextFault, TextKind, View};
pub use qtext_config::{Config, ConfigFault};
pub use qtext_files::{FromText, write_journal};
pub use qtext_job::{Job, LineFault};
pub use qtext_outcome::{WriteFault, write_outcome};
pub use qtool_files::{
    FileFault, Files, NamedStreams, OutcomeText, Refuser, SavedNames, finish_outcome,
};
pub use qtool_runs::{TextReplayFault, check_boards, replay, replay_text, run, run_with};

mod checking;
mod clashes;
mod client_names;
mod ending;
mod expanding;
mod fault_text;
mod finish;
mod program;
mod reading;
mod replaying;
mod running;
mod saving;
mod served;
mod services;
mod standard;
mod told_streams;

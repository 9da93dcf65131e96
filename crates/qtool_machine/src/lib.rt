//! The machine that the program runs on: its files, the streams of clients and its terminal.
#![tactic(auto)]

pub use machine_files::MachineFiles;

mod client_streams;
mod draft;
mod machine_files;
mod progress;
mod whole_text;

//! Runs and services: 1 to 16 scripts or clients, each with a worker in a thread of its own, on one shared store.
#![tactic(auto)]

pub use beginning::Beginning;
pub use machine::Machine;
pub use monitor::Monitor;
pub use options::Options;
pub use qrun_worker::{Gate, NoGate};
pub use run_fault::RunFault;
pub use runs::run_scripts;
pub use service::{Service, serve};
pub use worker_end::{WorkerEnd, conclude};

mod beginning;
mod concluding;
mod crew;
mod ending;
mod looking;
mod machine;
mod monitor;
mod observer;
mod opening;
mod options;
mod pace;
mod parting;
mod playing;
mod run_fault;
mod runs;
mod service;
mod watcher;
mod worker_end;

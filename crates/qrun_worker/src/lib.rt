//! One worker of a shared store, in a thread of its own: it plays what a client hands out, a script or another, until
//! that has no more lines.
#![tactic(auto)]

pub use gate::{Gate, NoGate};
pub use script_client::ScriptClient;
pub use worker::{Plays, Work, Worker, play};

mod gate;
mod lines;
mod script_client;
mod worker;

//! Clients: who hands lines to a worker, one after the other, and is told what each was answered.
#![tactic(auto)]

pub use client::{Answer, Client, ClientEnd, MAX_GIVEN};

mod client;

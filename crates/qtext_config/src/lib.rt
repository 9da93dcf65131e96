//! Configurations read from TOML: the setup and the clients that a text writes, or its first fault.
#![tactic(auto)]

pub use config::{
    CLIENT_KEYS, ClientShare, Config, ConfigClient, DOCUMENT_KEYS, MAX_CALLS, MAX_DEPTH, MAX_KIB,
    MAX_RATE, PRINCIPAL_KEYS, blocks_of_size,
};
pub use config_fault::ConfigFault;

mod config;
mod config_fault;

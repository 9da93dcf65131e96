//! What a service has counted.

use crate::mishap::MISHAPS;

/// As many clients at most as a service has.
pub const CLIENTS: usize = 16;

/// What a service has counted by some moment.
#[derive(Debug, PartialEq, Eq, Drop)]
pub struct ServiceCounts {
    /// How often each mishap was met, each at its own place.
    pub mishaps: [u64; MISHAPS],
    /// How many calls each client has made, by its number; none where there is no such client.
    pub calls: [Option<u64>; CLIENTS],
    /// When the last call was made, in seconds since 1970; 0 before the first.
    pub last_call: u64,
}

//! How far bytes go on, where one stands first, and whether they are the same, looked at 8 or 16 at a time.
#![tactic(auto)]

pub use places::first_place;
pub use printing::printing_end;
pub use same_bytes::are_same_bytes;

mod places;
mod printing;
mod same_bytes;

//! What the seats of a store have in common: one history, of which each has seen a prefix, and one tally, of which each
//! has counted a part.
#![tactic(auto)]

pub use counters::BlankCounters;
pub use history::History;
pub use prefix::Prefix;
pub use seat_tally::SeatTally;
pub use share::{Share, least_missing, together};
pub use store_id::StoreId;
pub use tally_part::TallyPart;
pub use tally_total::TallyTotal;

mod counters;
mod history;
mod law;
mod prefix;
mod seat_tally;
mod share;
mod store_id;
mod tally_part;
mod tally_total;

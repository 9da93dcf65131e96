//! The boards of a shared store: what is published, under which rule, the side that publishes and the side that looks.
#![tactic(auto)]

pub use board_change::BoardChange;
pub use laws::boards_are_whole;
pub use publisher::Publisher;
pub use viewer::{Looked, Viewer};

mod board_change;
mod laws;
mod publisher;
mod rule;
mod sheet;
mod viewer;

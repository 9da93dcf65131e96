//! A store that many seats share: one lock, a seat for each worker, and the end, at which what they counted adds up.
#![tactic(auto)]

pub use boards::Boards;
pub use end_fault::EndFault;
pub use held::{Held, MAX_BATCH};
pub use no_boards::NoBoards;
pub use on_demand::OnDemand;
pub use opening::{MAX_SEATS, Opened};
pub use published::Published;
pub use qaudit_checks::{Mismatch, gather};
pub use qplain::{Board, CallFault, Entry, LookFault, Receipt, Tallies, Transcript};
pub use qshare_boards::Viewer;
pub use qshare_history::Share;
pub use qstore_journaled::{Ended, JournaledStore};
pub use seat::{Blind, Seat};
pub use share_fault::ShareFault;
pub use shared::Shared;

mod boards;
mod clock;
mod end_fault;
mod first_boards;
mod held;
mod locked_store;
mod no_boards;
mod on_demand;
mod opening;
mod published;
mod seat;
mod seating;
mod share_fault;
mod shared;

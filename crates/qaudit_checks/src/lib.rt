//! What anybody may check: a journal against transcripts, boards against a journal, a store's own rows against its
//! records.
#![tactic(auto)]

pub use audits::audit;
pub use board_fault::BoardFault;
pub use boards::{check_boards, check_looks};
pub use laws::own_rows_agree;
pub use mismatch::{Mismatch, gather};

mod answers;
mod audits;
mod board_fault;
mod boards;
mod checker;
mod comparing;
mod laws;
mod mismatch;
mod strangers;

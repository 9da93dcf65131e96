//! Callers, calls, replies and answers as text.
#![tactic(auto)]

pub use answer::put_answer;
pub use call_text::{CALL_PLACE, CALL_ROOM, put_call, put_limits, put_owner};
pub use caller_text::{CALLER_PLACE, put_caller};
pub use reply_text::{REPLY_PLACE, put_end, put_reply};
pub use write_fault::WriteFault;

mod answer;
mod call_text;
mod caller_text;
mod data_text;
mod reply_text;
mod write_fault;

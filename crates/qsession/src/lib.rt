//! A store behind a handle that callers of other languages may hold, with or without a journal of its calls, and its
//! inodes and names as lists.
#![tactic(auto)]

pub use asking::{data_of, kind_of, path_of};
pub use borrowed_call::{Action, BorrowedCall, ReadFrom};
pub use caller::{Caller, Context};
pub use fault::Fault;
pub use inodes::{ListedInode, list_inodes};
pub use kept::Kept;
pub use names::{ListedName, list_names};
pub use path_text::PathText;
pub use read_reply::ReadReply;
pub use recorder::Recorder;
pub use replies::{DoneReply, QuotaReply, StatReply, TallyReply};
pub use requests::{NewLimits, NewOwners};
pub use session::Session;
pub use slot::Slot;

mod asking;
mod borrowed_call;
mod caller;
mod fault;
mod inodes;
mod kept;
mod laws;
mod loose;
mod names;
mod path_text;
mod read_reply;
mod recorder;
mod replies;
mod requests;
mod session;
mod slot;
mod telling;

//! Calls, their callers and their replies as words, read.
#![tactic(auto)]

pub use argument::{LimitsWords, owner_of};
pub use call::{CallParts, Values, call_in, parts_of};
pub use caller::caller_of;
pub use journaled::journaled_call_in;
pub use paths::Paths;
pub use reply::{end_of, limits_of, reply_in};
pub use reply_word::refusal_name;
pub use row::{Argument, MAX_FILL, VERBS, Verb, name_of, row_of, takes, verb_of, verb_word};
pub use value::{values_before, was_read};

mod argument;
mod call;
mod caller;
mod journaled;
mod paths;
mod reply;
mod reply_word;
mod row;
mod upper_case;
mod value;

//! Friendly scripts, written out as plain ones.
#![tactic(auto)]

pub use expansion::expand;

mod call;
mod caller;
mod expansion;
mod fill;
mod line;
mod moment;
mod names;
mod plain;
mod value;
mod ways;
mod words;

//! A store of files with quotas for C: each export makes one call of the store behind a session, or tells of it.
//!
//! A pointer is never null, also where its length is 0. One call at a time uses a session.
#![tactic(auto)]

mod changes;
mod inodes;
mod journals;
mod looks;
mod names;
mod opening;
mod texts;

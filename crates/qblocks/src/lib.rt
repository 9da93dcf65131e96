//! One sparse file in memory, in blocks of 4096 bytes; the bytes that a write brings; and values in a row that have
//! several owners.
#![tactic(auto)]

mod block;
mod cut;
mod data;
mod file;
mod input;
mod next;
mod room;
mod row;
mod rows;
mod shared_items;
mod span;
mod spare;

pub use block::BLOCK_SIZE;
pub use data::Data;
pub use file::{BlockFile, MAX_SIZE};
pub use input::Input;
pub use shared_items::SharedItems;
pub use spare::Spare;
pub use std::alloc::AllocError as NoMemory;

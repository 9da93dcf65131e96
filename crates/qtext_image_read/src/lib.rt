//! The lines of an image, read one by one.
#![tactic(auto)]

pub use block::BlockRow;
pub use head::{ImageHead, read_head};
pub use line::{ImageLine, read_line};
pub use record::ImageRecord;
pub use row::ImageRow;

mod block;
mod bounds;
mod digits;
mod head;
mod inode;
mod line;
mod name;
mod record;
mod row;

//! Images of living stores, written as text.
#![tactic(auto)]

pub use image_text::put_image;

mod block_text;
mod head_text;
mod image_text;
mod inode_text;
mod name_text;
mod record_text;

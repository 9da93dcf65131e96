//! One name of a tree.

/// A name, borrowed from the tree that holds it: the directory in which it stands, its bytes, and the inode that it
/// leads to.
#[derive(Clone, Copy, Debug)]
pub struct Name<'a> {
    pub dir: u64,
    pub text: &'a str,
    pub ino: u64,
}

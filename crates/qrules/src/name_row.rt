/// One name as an audit sees it: the directory that holds it, and the inode that it names.
#[derive(Clone, Copy, Debug, PartialEq, Eq)]
pub struct NameRow {
    pub dir: u64,
    pub ino: u64,
}

use qplain::PlacedRow;

/// What journaled calls do to a board: the rows that they change, each as it is to stand in its place, one after the
/// other, and the totals after them. The version is the last call's place in the journal.
#[derive(Drop)]
pub struct BoardChange {
    pub version: u64,
    pub rows: Vec<PlacedRow>,
    pub blocks: u64,
    pub inodes: u64,
}

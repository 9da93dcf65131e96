use qrules::BoardRow;

/// The most rows of a board that a call changes: of each kind, the row of who gives an inode up and of who has it then.
pub const MAX_CHANGED_ROWS: usize = 6;

/// A row of a board, and its place there, from 0: users by id, then groups, then projects.
#[derive(Clone, Copy, Debug, PartialEq, Eq)]
pub struct PlacedRow {
    pub place: usize,
    pub row: BoardRow,
}

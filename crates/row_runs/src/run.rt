use game_core::Row;

/// How lines give rows.
#[derive(Clone, Copy, PartialEq, Eq)]
pub enum TableVersion {
    /// Cell by cell.
    First,
    /// By the longest runs of cells with one row.
    Second,
}

/// Cells that follow one another, with one row.
#[derive(Clone, Copy, PartialEq, Eq)]
pub struct Run {
    pub first: u32,
    /// The last cell that has the row, no less than the first.
    pub last: u32,
    pub row: Row,
}

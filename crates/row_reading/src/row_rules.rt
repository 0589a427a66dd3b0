use row_runs::{RowFormat, TableVersion};

/// How lines give rows, and which rows a cell may have.
#[derive(Clone, Copy)]
pub struct RowRules {
    pub version: TableVersion,
    pub format: RowFormat,
    /// How many cells there are.
    pub cells: u32,
    /// How many input vectors there are.
    pub vectors: u32,
    pub least_rank: u32,
    pub most_rank: u32,
}

/// How lines give rows turn by turn.
#[derive(Clone, Copy)]
pub struct TurnRules {
    /// Those of each turn.
    pub rows: RowRules,
    /// How many turns there are.
    pub turns: u32,
    pub head: TurnHead,
}

/// The line before the rows of a turn.
#[derive(Clone, Copy, PartialEq, Eq)]
pub enum TurnHead {
    /// How many lines of rows follow: `rows 5`.
    Count,
    /// The number of the turn too: `turn 0 rows 5`.
    Numbered,
}

/// What a line prints of a row: its rank, its input, or both.
#[derive(Clone, Copy, PartialEq, Eq)]
pub enum RowFormat {
    /// The rank, and the input above rank 0: `4 1`, `0 -`.
    InputAboveZero,
    /// The input without a rank: `- 1`.
    InputAlone,
    /// Both at every rank: `0 1`.
    Both,
}

/// What there is too much of.
#[derive(Clone, Copy, Debug, PartialEq, Eq)]
pub enum LimitKind {
    /// More than 65,536 bytes of a plant text.
    PlantText,
    /// More than 67,108,864 bytes of a table text.
    TableText,
    /// More than 4,096 input vectors.
    Vectors,
    /// More than 2^20 cells.
    Cells,
    /// More than 2^22 pairs of a cell and an input vector.
    Pairs,
    /// More than 2^25 edges.
    Edges,
}

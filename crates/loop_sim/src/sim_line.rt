use game_core::Row;
use grid_quantiser::Point;

/// A line of a trace. Times count samples from 0.
#[derive(Clone, Copy, PartialEq, Eq)]
pub enum SimLine {
    /// The state of a sample, and the row of its cell.
    At { time: u32, x: Point, row: Row },
    /// The state is where it was to be brought.
    Arrived { time: u32 },
    /// No further sample was asked for.
    Stopped { time: u32 },
    /// The state is outside the domain, or its cell has no row.
    Lost { time: u32, x: Point },
}

//! Two tables of a plant with a state from 0 to 14 in cells of 3, whose inputs are -3 and 3.

use controller_table::{Table, read_table};
use grid_quantiser::Point;
use live_table::LiveFault;
use std::alloc::Global;

/// Brings the state to 12: below that it applies 3, the input vector of number 1, and at 12 to 14 none.
pub const REACH: &[u8] =
    b"table 1\nplant 1\nstate x 0 14 3\ninput u -3 3\nnext x = x + u\ntarget 12 14\ngoal reach\nend\nrows 5\n0 4 1\n1 3 1\n2 2 1\n3 1 1\n4 0 -\nend\n";

/// Keeps the state: from 3 on it applies -3, the input vector of number 0.
pub const KEEP: &[u8] =
    b"table 1\nplant 1\nstate x 0 14 3\ninput u -3 3\nnext x = x + u\ngoal keep\nend\nrows 5\n0 - 1\n1 - 0\n2 - 0\n3 - 0\n4 - 0\nend\n";

pub fn table_of(alloc: Global, text: &[u8]) -> Result<Table, LiveFault> {
    read_table(alloc, text).map_err(|_| LiveFault::Memory)
}

pub fn copy_of(alloc: Global, table: &Table) -> Result<Table, LiveFault> {
    table.copy(alloc).map_err(|_| LiveFault::Memory)
}

pub fn state(x: i128) -> Point {
    [x, 0, 0, 0, 0, 0]
}

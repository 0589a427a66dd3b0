//! Plants whose games are solved by hand, and what their rows are compared with.

use abstraction_table::{Abstraction, build};
use game_core::{Answer, Row};
use plant_text::read_plant;
use std::test::Fail;
use std::thread::Threads;
use successor_box::find_slopes;

/// Five cells of three positions. A cell's box is its centre 3 c + 1 plus the input, minus and plus 2.
///
/// | cell | u = 4 | u = 7 | row |
/// |---|---|---|---|
/// | 0 | 3 to 7: cells 1, 2 | 6 to 10: cells 2, 3 | rank 2 by either, so the lesser |
/// | 1 | 6 to 10: cells 2, 3 | 9 to 13: cells 3, 4 | rank 1, input 1 |
/// | 2 | 9 to 13: cells 3, 4 | 12 to 16: outside | rank 1, input 0 |
/// | 3, 4, goals | outside | outside | rank 0 |
pub const CORRIDOR: &[u8] =
    b"plant 1\nstate x 0 14 3\ninput u 4 7\nnoise w -1 1\nnext x = x + u + w\ntarget 9 14\ngoal reach\nend\n";

/// Eight cells of one position. A cell's box is its position plus the input, minus and plus 1.
///
/// | cell | u = 2 | u = 3 | row |
/// |---|---|---|---|
/// | 0, an obstacle | 1, 2, 3 | 2, 3, 4 | none |
/// | 1 | 2, 3, 4 | 3, 4, 5 | rank 2 by either, so the lesser |
/// | 2 | 3, 4, 5 | 4, 5, 6 | rank 1, input 1 |
/// | 3 | 4, 5, 6 | 5, 6, 7 | rank 1, input 0 |
/// | 4, a goal | 5, 6, 7 | outside | rank 0 |
/// | 5, 6, goals | outside | outside | rank 0 |
/// | 7 | outside | outside | none |
pub const BETWEEN: &[u8] =
    b"plant 1\nstate x 0 7 1\ninput u 2 3\nnoise w -1 1\nnext x = x + u + w\ntarget 4 6\nobstacle 0 0\ngoal reach\nend\n";

/// Eight cells of one position, to be kept off the cell 3. A cell's box is its position plus the input, minus and plus 1. Cell 1
/// falls in round 1, as its one enabled input may lead to 3. Cell 2 loses an input in round 0 and the other in round 1.
///
/// | cell | u = -1 | u = 1 | row |
/// |---|---|---|---|
/// | 0 | outside | 0, 1, 2 | none |
/// | 1 | outside | 1, 2, 3 | none |
/// | 2 | 0, 1, 2 | 2, 3, 4 | none |
/// | 3, an obstacle | 1, 2, 3 | 3, 4, 5 | none |
/// | 4 | 2, 3, 4 | 4, 5, 6 | input 1 |
/// | 5 | 3, 4, 5 | 5, 6, 7 | input 1 |
/// | 6 | 4, 5, 6 | outside | input 0 |
/// | 7 | 5, 6, 7 | outside | input 0 |
pub const PARTED: &[u8] =
    b"plant 1\nstate x 0 7 1\ninput u -1 1\nnoise w -1 1\nnext x = x + u + w\nobstacle 3 3\ngoal keep\nend\n";

/// The rows of `BETWEEN`.
pub fn rows_between() -> [Option<Row>; 8] {
    [
        None,
        row(2, 0),
        row(1, 1),
        row(1, 0),
        row(0, 0),
        row(0, 0),
        row(0, 0),
        None,
    ]
}

/// The rows of `PARTED`.
pub fn rows_parted() -> [Option<Row>; 8] {
    [
        None,
        None,
        None,
        None,
        row(0, 1),
        row(0, 1),
        row(0, 0),
        row(0, 0),
    ]
}

/// Five cells, each of which leads to the next, and the last outside: no cell can be kept.
pub const ONE_WAY: &[u8] = b"plant 1\nstate x 0 14 3\ninput u 3\nnext x = x + u\ngoal keep\nend\n";

/// Five cells that stay where they are. The first and the last are obstacles, and so the two items of round 0.
pub const ENDS: &[u8] =
    b"plant 1\nstate x 0 14 3\ninput u 0\nnext x = x + u\nobstacle 0 2\nobstacle 12 14\ngoal keep\nend\n";

/// The game of the plant that a text spells.
pub fn game_of<R: AllocGlobal + Threads + Sync>(rt: &R, text: &[u8]) -> Result<Abstraction, Fail> {
    let plant = read_plant(rt.alloc(), text)?;
    let slopes = find_slopes(rt.alloc(), &plant)?;
    Ok(build(rt, rt.alloc(), &plant, &slopes)?)
}

/// A row of this rank and input.
pub fn row(rank: u32, input: u32) -> Option<Row> {
    Some(Row { rank, input })
}

/// Whether an answer has these rows.
pub fn are_rows(answer: &Answer, rows: &[Option<Row>]) -> bool {
    if answer.cells() as usize != rows.len() {
        return false;
    }
    for c in 0..answer.cells() {
        if answer.row(c) != rows[c as usize] {
            return false;
        }
    }
    true
}

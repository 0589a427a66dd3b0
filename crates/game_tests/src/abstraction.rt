//! The game of a plant in memory.

use crate::games::{CORRIDOR, game_of};
use abstraction_table::Abstraction;
use game_core::{Graph, Mark};
use grid_quantiser::CellBox;
use std::test::Fail;
use std::thread;

/// The first and the last of the cells to which each pair may lead. The pairs from 5 on leave the domain.
pub const BOXES: [Option<(u32, u32)>; 10] = [
    Some((1, 2)),
    Some((2, 3)),
    Some((2, 3)),
    Some((3, 4)),
    Some((3, 4)),
    None,
    None,
    None,
    None,
    None,
];

const SOURCES: [&[u32]; 5] = [&[], &[0], &[0, 1, 2], &[1, 2, 3, 4], &[3, 4]];

/// Whether a box has this first and this last cell.
pub fn is_box(found: Option<CellBox>, wanted: Option<(u32, u32)>) -> bool {
    found.map(|area| (area.first, area.last)) == wanted
}

/// Whether a game has the boxes and the edges of the corridor.
fn is_corridor(game: &Abstraction) -> bool {
    if game.cells() != 5 || game.inputs() != 2 {
        return false;
    }
    for pair in 0..10 {
        if !is_box(game.boxes(pair), BOXES[pair as usize]) {
            return false;
        }
    }
    for cell in 0..5 {
        if game.sources(cell) != SOURCES[cell as usize] {
            return false;
        }
    }
    game.mark(2) == Mark::Plain && game.mark(3) == Mark::Goal && game.fan(5) == 0
}

/// The pair of cell 1 and input 7 leads to cells 3 and 4.
fn leads_on(game: &Abstraction) -> bool {
    game.cells() == 5
        && game.inputs() == 2
        && game.fan(3) == 2
        && game.successor(3, 0) == 3
        && game.successor(3, 1) == 4
}

#[test]
fn corridor_in_memory(rt: HostRuntime) -> Result<(), Fail> {
    let game = game_of(&rt, CORRIDOR)?;
    // two threads read it at once
    let same = thread::map_indices(
        &rt,
        rt.alloc(),
        2,
        &|_| is_corridor(&game) && leads_on(&game),
    )?;
    assert!(rt; same.as_slice() == [true; 2].as_slice());
    Ok(())
}

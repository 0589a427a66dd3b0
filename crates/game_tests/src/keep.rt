//! The keep game, by several numbers of workers.

use crate::games::{ENDS, ONE_WAY, PARTED, are_rows, game_of, row, rows_parted};
use crate::meeting::{MANY, Meeting};
use frontier_pool::Open;
use game_core::Graph;
use safety_game::{Scratch, Tally, keep, keep_in};
use std::test::Fail;
use std::thread::Threads;

/// 18 edges lead to the cells 0 to 3, which have no row, and 6 pairs of cells that are no obstacles have one of these. Of
/// pair 5 the successor 4 is left. The counters of the cells stand after those of the 16 pairs: of cell 5 one input is left.
fn is_kept_by<R: AllocGlobal + Threads + Sync>(rt: &R, workers: u32) -> Result<bool, Fail> {
    let game = game_of(rt, PARTED)?;
    if game.cells() != 8 || game.inputs() != 2 || workers == 0 || workers > 64 {
        return Ok(false);
    }
    let mut kept = keep(rt, rt.alloc(), &game, workers, &Open)?;
    let tally = Tally {
        cuts: 24,
        offers: 0,
        rounds: 3,
    };
    let of_pair = kept.board.left(&mut kept.root, 5);
    let of_cell = kept.board.left(&mut kept.root, 21);
    Ok(
        kept.tally == tally
            && (of_pair, of_cell) == (1, 1)
            && are_rows(&kept.answer, &rows_parted()),
    )
}

#[test]
fn each_number_of_workers_keeps(rt: HostRuntime) -> Result<(), Fail> {
    assert!(rt; is_kept_by(&rt, 1)? && is_kept_by(&rt, 7)? && is_kept_by(&rt, 64)?);
    Ok(())
}

/// Each of the 4 edges leads to a cell that falls, and each of their pairs is its cell's only one.
#[test]
fn nothing_is_kept_of_a_way_that_ends(rt: HostRuntime) -> Result<(), Fail> {
    let game = game_of(&rt, ONE_WAY)?;
    let kept = keep(&rt, rt.alloc(), &game, 2, &Open)?;
    let tally = Tally {
        cuts: 8,
        offers: 0,
        rounds: 5,
    };
    assert!(rt; kept.tally == tally && are_rows(&kept.answer, &[None; 5]));
    Ok(())
}

/// The two obstacles are the items of round 0, and each is led to by itself alone.
#[test]
fn two_workers_meet_at_the_obstacles(rt: HostRuntime) -> Result<(), Fail> {
    let game = game_of(&rt, ENDS)?;
    let gate = Meeting::of(MANY);
    let scratch = Scratch::new(&rt, rt.alloc(), &game, 2)?;
    let kept = keep_in(&rt, rt.alloc(), &game, scratch, &gate);
    let tally = Tally {
        cuts: 2,
        offers: 0,
        rounds: 1,
    };
    let rows = [None, row(0, 0), row(0, 0), row(0, 0), None];
    assert!(rt; gate.met() && kept.tally == tally && are_rows(&kept.answer, &rows));
    Ok(())
}

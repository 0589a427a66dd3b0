//! The solvers by one thread, and answers.

use crate::games::{BETWEEN, ONE_WAY, PARTED, are_rows, game_of, row, rows_between, rows_parted};
use game_core::{Answer, Graph, Mark, Remark, keep_plain, solve_plain};
use std::test::Fail;

#[test]
fn reach_solution_by_one_thread(rt: HostRuntime) -> Result<(), Fail> {
    let answer = solve_plain(rt.alloc(), &game_of(&rt, BETWEEN)?)?;
    assert!(rt; are_rows(&answer, &rows_between()));
    Ok(())
}

#[test]
fn keep_solution_by_one_thread(rt: HostRuntime) -> Result<(), Fail> {
    let answer = keep_plain(rt.alloc(), &game_of(&rt, PARTED)?)?;
    assert!(rt; are_rows(&answer, &rows_parted()));
    Ok(())
}

/// The one input leads to the next cell: cell 2 to the goal 3, cells 0 and 1 past the obstacle at best, cell 4 outside.
#[test]
fn game_under_other_marks(rt: HostRuntime) -> Result<(), Fail> {
    let game = game_of(&rt, ONE_WAY)?;
    if game.cells() != 5 {
        return Err("other cells".into());
    }
    let marks = [
        Mark::Plain,
        Mark::Obstacle,
        Mark::Plain,
        Mark::Goal,
        Mark::Plain,
    ];
    let answer = solve_plain(rt.alloc(), &Remark::new(&game, &marks))?;
    assert!(rt; are_rows(&answer, &[None, None, row(1, 0), row(0, 0), None]));
    Ok(())
}

#[test]
fn row_is_set_at_one_cell(rt: HostRuntime) -> Result<(), Fail> {
    let mut answer = Answer::blank(rt.alloc(), 3)?;
    answer.set(1, row(4, 7));
    assert!(rt; are_rows(&answer, &[None, row(4, 7), None]));
    Ok(())
}

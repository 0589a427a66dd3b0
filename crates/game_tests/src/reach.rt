//! The reach game, by several numbers of workers.

use crate::games::{BETWEEN, CORRIDOR, are_rows, game_of, row, rows_between};
use crate::meeting::{Later, MANY, Meeting};
use frontier_pool::Open;
use game_core::Graph;
use reach_avoid::{Scratch, Tally, solve, solve_in};
use std::sync::atomic::AtomicBool;
use std::test::Fail;
use std::thread::Threads;

/// Of the 27 edges 25 lead to a cell with a row, and of the 9 enabled pairs 7 lead to such cells alone, each of which offers.
/// The word of cell 1 is 1 + rank * 4096 + input. Of pair 7 the successor 7 is left, which has no row.
fn is_solved_by<R: AllocGlobal + Threads + Sync>(rt: &R, workers: u32) -> Result<bool, Fail> {
    let game = game_of(rt, BETWEEN)?;
    if game.cells() != 8 || game.inputs() != 2 || workers == 0 || workers > 64 {
        return Ok(false);
    }
    let mut solved = solve(rt, rt.alloc(), &game, workers, &Open)?;
    let tally = Tally {
        cuts: 25,
        offers: 7,
        rounds: 3,
    };
    let word = solved.board.read(&mut solved.root, 1);
    let left = solved.board.left(&mut solved.root, 7);
    Ok(
        solved.tally == tally
            && (word, left) == (8193, 1)
            && are_rows(&solved.answer, &rows_between()),
    )
}

#[test]
fn each_number_of_workers_solves(rt: HostRuntime) -> Result<(), Fail> {
    assert!(rt; is_solved_by(&rt, 1)? && is_solved_by(&rt, 7)? && is_solved_by(&rt, 64)?);
    Ok(())
}

/// The two goals are the items of round 0.
#[test]
fn two_workers_meet_in_round_0(rt: HostRuntime) -> Result<(), Fail> {
    let game = game_of(&rt, CORRIDOR)?;
    let gate = Meeting::of(MANY);
    let scratch = Scratch::new(&rt, rt.alloc(), &game, 2)?;
    let solved = solve_in(&rt, rt.alloc(), &game, scratch, &gate);
    let rows = [row(2, 0), row(1, 1), row(1, 0), row(0, 0), row(0, 0)];
    assert!(rt; gate.met() && are_rows(&solved.answer, &rows));
    Ok(())
}

/// The second goal comes to the gate only after the first was let go.
#[test]
fn one_worker_meets_nobody(rt: HostRuntime) -> Result<(), Fail> {
    let game = game_of(&rt, CORRIDOR)?;
    let gate = Meeting::of(10);
    let solved = solve(&rt, rt.alloc(), &game, 1, &gate)?;
    assert!(rt; !gate.met() && solved.tally.rounds == 3);
    Ok(())
}

/// 1 and 2 lead to the goal 0, the cells 3 to 15,000 to 1, and those after them to 2: round 0 has one item, and round 1
/// two, which some 30,000 pairs lead to.
const TWO_FUNNELS: &[u8] =
    b"plant 1\nstate x 0 30000 1\nnext x = min(1, max(0, x - 2)) + min(1, max(0, x - 15000))\ntarget 0 0\ngoal reach\nend\n";

#[test]
fn two_workers_meet_in_round_1(rt: HostRuntime) -> Result<(), Fail> {
    let game = game_of(&rt, TWO_FUNNELS)?;
    let gate = Later {
        begun: AtomicBool::new(false),
        meeting: Meeting::of(MANY),
    };
    let solved = solve(&rt, rt.alloc(), &game, 2, &gate)?;
    assert!(rt; gate.meeting.met() && solved.tally.rounds == 3);
    Ok(())
}

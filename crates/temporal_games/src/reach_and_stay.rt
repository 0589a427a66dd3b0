//! Reach and stay, by the solvers of both games under other marks.
ghost use Rattle.std.specs.Prelude.{◌≡◌, ◌≤◌, length, IfOk};
ghost use Rattle.base.specs.Workers.{AreWorkers};
ghost use Rattle.temporal_games.specs.Stay.{IsStaySolution};
ghost use Rattle.temporal_games.specs.inside.StayMarks.{rows_over};

use crate::stay_marks::{marks_to_hold, marks_to_reach};
use frontier_pool::Gate;
use game_core::{Answer, Graph, NoMemory, Remark};
use reach_avoid::solve;
use safety_game::keep;
use std::alloc::Global;
use std::thread::Threads;

/// Solves reach and stay of a graph by 1 to 64 workers: the goals that can be held for ever, and the ways to them. The gate is passed
/// before each cell of each round (tested: `Gate`).
pub fn stay<R: Threads + Sync, G: Graph + Sync, T: Gate>(
    rt: &R,
    alloc: Global,
    g: &G,
    workers: u32,
    gate: &T,
) -> Result<Answer, NoMemory>
    requires { AreWorkers workers }
    ensures { IfOk result (IsStaySolution (G.game g.now)) }
{
    let marks = marks_to_hold(alloc, g)?;
    let held_answer = keep(rt, alloc, &Remark::new(g, &marks), workers, gate)?.answer;
    let marks = marks_to_reach(alloc, g, &held_answer)?;
    let mut answer = solve(rt, alloc, &Remark::new(g, &marks), workers, gate)?.answer;
    overlay_rows(&held_answer, &mut answer);
    Ok(answer)
}

/// Puts the rows that there are over others.
fn overlay_rows(held_answer: &Answer, answer: &mut Answer)
    requires { length held_answer.now ≡ length answer.old }
    ensures { answer.new ≡ rows_over (length held_answer.now) held_answer.now answer.old }
{
    for c in 0..held_answer.cells() {
        answer.set(c, held_answer.row(c).or(answer.row(c)));
    }
}

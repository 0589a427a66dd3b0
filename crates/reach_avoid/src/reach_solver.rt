//! The solver.
ghost use Rattle.std.specs.Prelude.{◌≤◌, IfOk};
ghost use Rattle.base.specs.Workers.{AreWorkers};
ghost use Rattle.reach_avoid.specs.ReachBoards.{IsBoardOf};
ghost use Rattle.reach_avoid.specs.Solved.{IsSolved};

use crate::Solved;
use crate::reach_rule::Reach;
use crate::scratch::Scratch;
use board_rounds::solve_by_rule;
use frontier_pool::Gate;
use game_core::{Graph, NoMemory};
use std::alloc::Global;
use std::thread::Threads;

/// Solves the reach game of a graph by 1 to 64 workers. The gate is passed before each cell of each round (tested: `Gate`).
pub fn solve<R: Threads + Sync, G: Graph + Sync, T: Gate>(
    rt: &R,
    alloc: Global,
    g: &G,
    workers: u32,
    gate: &T,
) -> Result<Solved, NoMemory>
    requires { AreWorkers workers }
    ensures { IfOk result (IsSolved (G.game g.now)) }
{
    let scratch = Scratch::new(rt, alloc, g, workers)?;
    Ok(solve_in(rt, alloc, g, scratch, gate))
}

/// The same in a scratch that was made for the graph. Its rounds request memory, and can do without it.
pub fn solve_in<R: Threads + Sync, G: Graph + Sync, T: Gate>(
    rt: &R,
    alloc: Global,
    g: &G,
    scratch: Scratch,
    gate: &T,
) -> Solved
    requires { IsBoardOf (G.game g.now) scratch }
    ensures { IsSolved (G.game g.now) result }
{
    let rule = Reach {
        graph: g,
        inputs: g.inputs(),
    };
    solve_by_rule(rt, alloc, scratch, &rule, gate)
}

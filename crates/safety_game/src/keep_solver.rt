//! The solver.
ghost use Rattle.std.specs.Prelude.{◌≤◌, IfOk};
ghost use Rattle.base.specs.Workers.{AreWorkers};
ghost use Rattle.safety_game.specs.KeepBoards.{IsBoardOf};
ghost use Rattle.safety_game.specs.Kept.{IsKeepSolved};

use crate::Kept;
use crate::keep_rule::Keep;
use crate::scratch::Scratch;
use board_rounds::solve_by_rule;
use frontier_pool::Gate;
use game_core::{Graph, NoMemory};
use std::alloc::Global;
use std::thread::Threads;

/// Solves the keep game of a graph by 1 to 64 workers. The gate is passed before each cell of each round (tested: `Gate`).
pub fn keep<R: Threads + Sync, G: Graph + Sync, T: Gate>(
    rt: &R,
    alloc: Global,
    g: &G,
    workers: u32,
    gate: &T,
) -> Result<Kept, NoMemory>
    requires { AreWorkers workers }
    ensures { IfOk result (IsKeepSolved (G.game g.now)) }
{
    let scratch = Scratch::new(rt, alloc, g, workers)?;
    Ok(keep_in(rt, alloc, g, scratch, gate))
}

/// The same in a scratch that was made for the graph. Its rounds request memory, and can do without it.
pub fn keep_in<R: Threads + Sync, G: Graph + Sync, T: Gate>(
    rt: &R,
    alloc: Global,
    g: &G,
    scratch: Scratch,
    gate: &T,
) -> Kept
    requires { IsBoardOf (G.game g.now) scratch }
    ensures { IsKeepSolved (G.game g.now) result }
{
    let inputs = g.inputs();
    let rule = Keep {
        graph: g,
        inputs,
        pairs: g.cells() * inputs,
    };
    solve_by_rule(rt, alloc, scratch, &rule, gate)
}

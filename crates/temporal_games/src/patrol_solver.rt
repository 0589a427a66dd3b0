//! Patrol, by the solver of the reach game under other marks, among the cells that the solver of the keep game keeps.
ghost use Rattle.std.specs.Prelude.{◌≤◌, ◌*◌, length, IfOk};
ghost use Rattle.base.specs.Workers.{AreWorkers};
ghost use Rattle.plant_game.specs.Abstraction.{IsGameOf};
ghost use Rattle.turn_rows.specs.Targets.{IsInTarget};
ghost use Rattle.temporal_games.specs.Patrol.{IsPatrol};
ghost use Rattle.temporal_games.specs.inside.PatrolSearch.{IsAtStart};
ghost use Rattle.base.specs.declared.limits.TheConstants.{TURNS_LIMIT};

use crate::turns::PatrolSearch;
use frontier_pool::Gate;
use game_core::{Graph, NoMemory};
use plant_record::Plant;
use safety_game::keep;
use std::alloc::Global;
use std::thread::Threads;
use turn_rows::PatrolRows;

/// Solves patrol of a plant's game by 1 to 64 workers: for each turn its rows. The gate is passed before each cell of each
/// round of each solution (tested: `Gate`).
pub fn patrol<R: Threads + Sync, G: Graph + Sync, T: Gate>(
    rt: &R,
    alloc: Global,
    g: &G,
    p: &Plant,
    workers: u32,
    gate: &T,
) -> Result<PatrolRows, NoMemory>
    requires game { IsGameOf p.now (G.game g.now) }
    requires workers { AreWorkers workers }
    requires size { (G.game g.now).cells * length p.now.targets ≤ TURNS_LIMIT }
    ensures { IfOk result (IsPatrol (G.game g.now) (IsInTarget p.now) (length p.now.targets)) }
{
    let mut turns = first_turns(rt, alloc, g, p, workers, gate)?;
    while let Some(turn) = turns.last_due() {
        turns.solve_turn(rt, alloc, g, turn, workers, gate)?;
    }
    Ok(turns.into_rows())
}

/// The turns to begin with. Arrivals that are lost one after another, as on a line on which nothing comes back, are left out
/// at once: no visits go on for ever from a cell that isn't kept.
fn first_turns<R: Threads + Sync, G: Graph + Sync, T: Gate>(
    rt: &R,
    alloc: Global,
    g: &G,
    p: &Plant,
    workers: u32,
    gate: &T,
) -> Result<PatrolSearch, NoMemory>
    requires game { IsGameOf p.now (G.game g.now) }
    requires workers { AreWorkers workers }
    ensures { IfOk result (IsAtStart p.now (G.game g.now)) }
{
    let kept = keep(rt, alloc, g, workers, gate)?.answer;
    PatrolSearch::new(alloc, g, p, &kept)
}

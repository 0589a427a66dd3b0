ghost use Rattle.std.specs.Prelude.{◌≡◌, IfOk};
ghost use Rattle.abstraction_table.specs.Table.{game_of, forward_game};
ghost use Rattle.base.specs.Workers.{AreWorkers};
ghost use Rattle.goal_solver.specs.GoalScratch.{goal_of, IsScratchFor};
ghost use Rattle.goal_solver.specs.SolvedGames.{IsSolvedGame};

use abstraction_table::{Abstraction, ForwardAbstraction};
use board_rounds::SolvedGame;
use frontier_pool::Gate;
use game_core::NoMemory;
use plant_record::GoalKind;
use std::alloc::Global;
use std::thread::Threads;

/// The memory in which the game of a goal is solved.
#[derive(Drop)]
pub enum GoalScratch {
    Reach(reach_avoid::Scratch),
    Keep(safety_game::Scratch),
}

impl GoalScratch {
    /// Makes the board, for 1 to 64 workers.
    ///
    /// Make it before the source lists are filled, so that they and the list of the board's numbers, whose memory is returned by
    /// then, never take memory at the same time.
    pub fn new<R: Threads + Sync>(
        rt: &R,
        alloc: Global,
        goal: GoalKind,
        forward: &ForwardAbstraction,
        workers: u32,
    ) -> Result<GoalScratch, NoMemory>
        requires { AreWorkers workers }
        ensures goal { IfOk result (λ scratch. goal_of scratch ≡ goal) }
        ensures board { IfOk result (IsScratchFor (forward_game forward.now)) }
    {
        match goal {
            GoalKind::Reach => {
                let scratch = reach_avoid::Scratch::new(rt, alloc, forward, workers)?;
                Ok(GoalScratch::Reach(scratch))
            }
            GoalKind::Keep => {
                let scratch = safety_game::Scratch::new(rt, alloc, forward, workers)?;
                Ok(GoalScratch::Keep(scratch))
            }
        }
    }

    /// Solves the game.
    ///
    /// A round of several hands requests memory: where there is none, one hand does the round, and nothing is refused.
    pub fn solve<R: Threads + Sync, T: Gate>(
        self,
        rt: &R,
        alloc: Global,
        game: &Abstraction,
        gate: &T,
    ) -> SolvedGame
        requires { IsScratchFor (game_of game.now) self }
        ensures { IsSolvedGame (goal_of self) (game_of game.now) result }
    {
        match self {
            GoalScratch::Reach(scratch) => reach_avoid::solve_in(rt, alloc, game, scratch, gate),
            GoalScratch::Keep(scratch) => safety_game::keep_in(rt, alloc, game, scratch, gate),
        }
    }
}

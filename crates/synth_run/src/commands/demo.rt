//! The line of a demo plant, from its number.

ghost use Rattle.std.specs.Prelude.{◌≡◌, ℕ, List, IfOk, IfErr};
ghost use Rattle.command_line.specs.declared.command.Command.{Command};
ghost use Rattle.command_line.specs.Command.{IsDemoNumber};
ghost use Rattle.base.specs.Workers.{AreWorkers};
ghost use Rattle.demo_plants.specs.Demo.{demo_plant_of};
ghost use Rattle.plant_game.specs.Abstraction.{IsGameOf};
ghost use Rattle.abstraction_table.specs.Table.{forward_game};
ghost use Rattle.text_abstraction.specs.Causes.{without_memory};
ghost use Rattle.synth_run.specs.inside.Making.{IsMade};

use crate::work::Work;
use abstraction_table::{ForwardAbstraction, add_sources};
use command_texts::Text;
use demo_plants::{demo_line, demo_plant};
use frontier_pool::Gate;
use goal_solver::GoalScratch;
use plant_record::GoalKind;
use std::alloc::Global;
use std::thread::Threads;
use text_abstraction::{Stop, forward_of};

/// The line of a demo plant, which nothing refuses, whatever the bytes are; and the board on which its game was solved, with
/// its root.
pub fn demo<R: Threads + Sync, G: Gate>(
    rt: &R,
    alloc: Global,
    number: u32,
    workers: u32,
    gate: &G,
) -> Result<Work, Stop>
    requires number { IsDemoNumber number }
    requires workers { AreWorkers workers }
    ensures made { IfOk result (λ work. (bytes : List ℕ) → IsMade (Command.Demo number workers) bytes work) }
    ensures memory { IfErr result (λ stop. stop ≡ without_memory) }
{
    let forward = demo_forward(rt, alloc, number)?;
    let scratch = GoalScratch::new(rt, alloc, GoalKind::Reach, &forward, workers)?;
    let game = add_sources(rt, alloc, forward)?;
    let solved = scratch.solve(rt, alloc, &game, gate);
    let line = demo_line(alloc, number, &game, &solved.answer)?;
    Ok(Work {
        text: Text::Summary(line),
        played: Some((solved.board, solved.root)),
    })
}

/// The forward abstraction of the n-th demo plant.
fn demo_forward<R: Threads + Sync>(
    rt: &R,
    alloc: Global,
    n: u32,
) -> Result<ForwardAbstraction, Stop>
    requires { IsDemoNumber n }
    ensures game { IfOk result (λ forward. IsGameOf (demo_plant_of n) (forward_game forward)) }
    ensures memory { IfErr result (λ stop. stop ≡ without_memory) }
{
    let plant = demo_plant(alloc, n)?;
    forward_of(rt, alloc, &plant)
}

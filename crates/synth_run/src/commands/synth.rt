//! From the bytes of a plant's text to the table of its solution.

ghost use Rattle.std.specs.Prelude.{IfOk, IfErr};
ghost use Rattle.command_line.specs.declared.command.Command.{Command};
ghost use Rattle.base.specs.Workers.{AreWorkers};
ghost use Rattle.command_outcomes.specs.Stages.{IsStagedRefusal};
ghost use Rattle.text_abstraction.specs.Causes.{IsStopFor};
ghost use Rattle.synth_run.specs.inside.Making.{IsMade};

use crate::work::Work;
use abstraction_table::add_sources;
use command_texts::Text;
use controller_table::{RowsText, TableVersion, TextKind};
use frontier_pool::Gate;
use goal_solver::GoalScratch;
use std::alloc::Global;
use std::thread::Threads;
use text_abstraction::{Stop, forward_of_text};

/// The table of the plant that the bytes spell, and the board on which its game was solved, with its root.
pub fn synth<R: Threads + Sync, G: Gate>(
    rt: &R,
    alloc: Global,
    bytes: &[u8],
    workers: u32,
    gate: &G,
) -> Result<Work, Stop>
    requires { AreWorkers workers }
    ensures made { IfOk result (IsMade (Command.Synth workers) bytes.now) }
    ensures refused { IfErr result (IsStopFor (IsStagedRefusal (Command.Synth workers) bytes.now)) }
{
    let (plant, forward) = forward_of_text(rt, alloc, bytes)?;
    let scratch = GoalScratch::new(rt, alloc, plant.goal(), &forward, workers)?;
    let game = add_sources(rt, alloc, forward)?;
    let solved = scratch.solve(rt, alloc, &game, gate);
    let kind = TextKind::Table(TableVersion::Second);
    let text = RowsText::of_one_turn(alloc, kind, plant, solved.answer)?;
    Ok(Work {
        text: Text::Rows(text),
        played: Some((solved.board, solved.root)),
    })
}

//! From the bytes of a plant's text to the text of a patrol of its targets in turn.

ghost use Rattle.std.specs.Prelude.{IfOk, IfErr};
ghost use Rattle.command_line.specs.declared.command.Command.{Command};
ghost use Rattle.base.specs.Workers.{AreWorkers};
ghost use Rattle.command_outcomes.specs.Stages.{IsStagedRefusal};
ghost use Rattle.text_abstraction.specs.Causes.{IsStopFor};
ghost use Rattle.synth_run.specs.inside.Making.{IsMade};

use crate::work::Work;
use abstraction_table::add_sources;
use command_line::Refusal;
use command_texts::Text;
use controller_table::{RowsText, TextKind};
use frontier_pool::Gate;
use std::alloc::Global;
use std::thread::Threads;
use text_abstraction::{Stop, forward_of_text};

/// The patrol text of the plant that the bytes spell.
pub fn patrol<R: Threads + Sync, G: Gate>(
    rt: &R,
    alloc: Global,
    bytes: &[u8],
    workers: u32,
    gate: &G,
) -> Result<Work, Stop>
    requires { AreWorkers workers }
    ensures made { IfOk result (IsMade (Command.Patrol workers) bytes.now) }
    ensures refused { IfErr result (IsStopFor (IsStagedRefusal (Command.Patrol workers) bytes.now)) }
{
    let (plant, forward) = forward_of_text(rt, alloc, bytes)?;
    if !TextKind::Patrol.has_few_turns(&plant) {
        return Err(Stop::Refused(Refusal::TooManyTurns));
    }
    let game = add_sources(rt, alloc, forward)?;
    let rows = temporal_games::patrol(rt, alloc, &game, &plant, workers, gate)?;
    let text = RowsText::new(TextKind::Patrol, plant, rows);
    Ok(Work::of_text(Text::Rows(text)))
}

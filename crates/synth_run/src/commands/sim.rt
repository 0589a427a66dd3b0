//! From the bytes of a table's text to the plant in closed loop with it.

ghost use Rattle.std.specs.Prelude.{◌≡◌, ◌≤◌, IfSome, IfNone, IfOk, IfErr, OnOk};
ghost use Rattle.successor_box.specs.Deviations.{HasNoOverflow};
ghost use Rattle.command_line.specs.declared.command.Command.{Command};
ghost use Rattle.command_outcomes.specs.Stages.{IsStagedRefusal, IsStartRefusal};
ghost use Rattle.command_outcomes.specs.Traces.{HasRowFor, HasNoRowFor};
ghost use Rattle.text_abstraction.specs.Causes.{without_row, IsStopFor};
ghost use Rattle.synth_run.specs.inside.Making.{IsMade};
ghost use Rattle.base.specs.declared.limits.TheConstants.{SAMPLES_LIMIT};

use crate::work::Work;
use command_line::{Refusal, StateNumbers};
use command_texts::{Simulation, Text};
use controller_table::{Table, read_table};
use game_core::Row;
use std::alloc::Global;
use successor_box::find_slopes;
use text_abstraction::Stop;

/// The trace of the table that the bytes are.
pub fn sim(
    alloc: Global,
    bytes: &[u8],
    samples: u32,
    seed: u64,
    start: &StateNumbers,
) -> Result<Work, Stop>
    requires { samples ≤ SAMPLES_LIMIT }
    ensures made { IfOk result (IsMade (Command.Sim samples seed start.now) bytes.now) }
    ensures refused { IfErr result (IsStopFor (IsStagedRefusal (Command.Sim samples seed start.now) bytes.now)) }
{
    let table = read_table(alloc, bytes)?;
    refuse_start(alloc, &table, start)?;
    Ok(Work::of_text(Text::Trace(Simulation {
        table,
        start: start.point(),
        seed,
        samples,
    })))
}

/// Refuses a table whose plant overflows, or that has no row for the start.
fn refuse_start(alloc: Global, table: &Table, start: &StateNumbers) -> Result<(), Stop>
    ensures fits { OnOk result (HasNoOverflow table.now.plant) }
    ensures begins { OnOk result (HasRowFor table.now.plant table.now.rows start.now) }
    ensures refused { IfErr result (IsStopFor (IsStartRefusal start.now table.now.plant table.now.rows)) }
{
    find_slopes(alloc, table.plant())?;
    refuse_no_row(table, start)
}

/// Refuses a start at which a table has no row.
fn refuse_no_row(table: &Table, start: &StateNumbers) -> Result<(), Stop>
    ensures found { OnOk result (HasRowFor table.now.plant table.now.rows start.now) }
    ensures none { IfErr result (λ stop. (stop ≡ without_row) × HasNoRowFor table.now.plant table.now.rows start.now) }
{
    match row_for(table, start) {
        Some(_) => Ok(()),
        None => Err(Stop::Refused(Refusal::NoRow)),
    }
}

/// The row of the cell in which a start lies.
fn row_for(table: &Table, start: &StateNumbers) -> Option<Row>
    ensures found { IfSome result (λ _. HasRowFor table.now.plant table.now.rows start.now) }
    ensures none { IfNone result (HasNoRowFor table.now.plant table.now.rows start.now) }
{
    if start.count() != table.plant().states() {
        return None;
    }
    table.row_at(&start.point())
}

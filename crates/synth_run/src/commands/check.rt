//! From the bytes of a table's text to the verdict on its rows.

ghost use Rattle.std.specs.Prelude.{◌≡◌, IfOk, IfErr, OnOk};
ghost use Rattle.command_line.specs.declared.command.Command.{Command};
ghost use Rattle.table_check.specs.declared.verdict.Verdict.TheVariants.{Valid};
ghost use Rattle.plant_record.specs.declared.aims.GoalKind.TheVariants.{Reach, Keep};
ghost use Rattle.plant_game.specs.PlantSolution.{IsSolutionOf};
ghost use Rattle.command_outcomes.specs.IsOutcomeFor.{IsSolvable};
ghost use Rattle.command_outcomes.specs.Stages.{IsStagedRefusal, IsRowsRefusal};
ghost use Rattle.text_abstraction.specs.Causes.{IsStopFor};
ghost use Rattle.synth_run.specs.inside.Judging.{IsJudged, IsStopBy};
ghost use Rattle.synth_run.specs.inside.Making.{IsMade};

use crate::work::Work;
use abstraction_table::add_sources;
use command_line::Refusal;
use command_texts::Text;
use controller_table::{Table, read_table};
use game_parts::find_first_wrong;
use plant_record::GoalKind;
use std::alloc::Global;
use std::thread::Threads;
use successor_box::find_slopes;
use table_check::{RowJudge, Verdict, check_keep};
use text_abstraction::{Stop, forward_of};

/// That the bytes are the table of their plant.
pub fn check<R: Threads + Sync>(rt: &R, alloc: Global, bytes: &[u8]) -> Result<Work, Stop>
    ensures made { IfOk result (IsMade Command.Check bytes.now) }
    ensures refused { IfErr result (IsStopFor (IsStagedRefusal Command.Check bytes.now)) }
{
    let table = read_table(alloc, bytes)?;
    check_table(rt, alloc, &table)?;
    Ok(Work::of_text(Text::Line(b"valid\n")))
}

/// Checks that the rows of a table are the solution of its plant.
fn check_table<R: Threads + Sync>(rt: &R, alloc: Global, table: &Table) -> Result<(), Stop>
    ensures solvable { OnOk result (IsSolvable table.now.plant) }
    ensures solution { OnOk result (IsSolutionOf table.now.plant table.now.rows) }
    ensures refused { IfErr result (IsStopFor (IsRowsRefusal table.now.plant table.now.rows)) }
{
    let verdict = verdict_on(rt, alloc, table)?;
    refuse_invalid(verdict)
}

/// Refuses rows of which one isn't right, for the first such cell.
fn refuse_invalid(verdict: Verdict) -> Result<(), Stop>
    ensures valid { OnOk result (verdict ≡ Valid) }
    ensures invalid { IfErr result (IsStopBy verdict) }
{
    match verdict {
        Verdict::Valid => Ok(()),
        Verdict::Invalid { cell } => Err(Stop::Refused(Refusal::Invalid { cell })),
    }
}

/// The verdict on the rows of a table, for its plant's goal.
fn verdict_on<R: Threads + Sync>(rt: &R, alloc: Global, table: &Table) -> Result<Verdict, Stop>
    ensures solvable { IfOk result (λ _. IsSolvable table.now.plant) }
    ensures verdict { IfOk result (IsJudged table.now.plant table.now.rows) }
    ensures refused { IfErr result (IsStopFor (IsRowsRefusal table.now.plant table.now.rows)) }
{
    match table.plant().goal() {
        GoalKind::Reach => reach_verdict(rt, alloc, table),
        GoalKind::Keep => keep_verdict(rt, alloc, table),
    }
}

/// The verdict on a table by which its plant is to reach a target. It needs no source lists.
fn reach_verdict<R: Threads + Sync>(rt: &R, alloc: Global, table: &Table) -> Result<Verdict, Stop>
    requires { table.now.plant.goal ≡ Reach }
    ensures solvable { IfOk result (λ _. IsSolvable table.now.plant) }
    ensures verdict { IfOk result (IsJudged table.now.plant table.now.rows) }
    ensures refused { IfErr result (IsStopFor (IsRowsRefusal table.now.plant table.now.rows)) }
{
    let plant = table.plant();
    let slopes = find_slopes(alloc, plant)?;
    let judge = RowJudge::new(table);
    let first = find_first_wrong(rt, alloc, plant, &slopes, &judge)?;
    Ok(Verdict::by_first_wrong(first))
}

/// The verdict on a table by which its plant is to be kept.
fn keep_verdict<R: Threads + Sync>(rt: &R, alloc: Global, table: &Table) -> Result<Verdict, Stop>
    requires { table.now.plant.goal ≡ Keep }
    ensures solvable { IfOk result (λ _. IsSolvable table.now.plant) }
    ensures verdict { IfOk result (IsJudged table.now.plant table.now.rows) }
    ensures refused { IfErr result (IsStopFor (IsRowsRefusal table.now.plant table.now.rows)) }
{
    let forward = forward_of(rt, alloc, table.plant())?;
    let game = add_sources(rt, alloc, forward)?;
    let verdict = check_keep(alloc, &game, table)?;
    Ok(verdict)
}

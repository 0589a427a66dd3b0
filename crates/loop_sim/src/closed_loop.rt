//! A closed loop, sample by sample.

ghost use Rattle.std.specs.Prelude.{◌≡◌, ◌<◌, ◌∷◌, Some};
ghost use Rattle.plant_record.specs.Limits.{IsWithinLimits};
ghost use Rattle.successor_box.specs.Deviations.{HasNoOverflow};
ghost use Rattle.controller_table.specs.Tables.{RowsFit};
ghost use Rattle.controller_table.specs.Choice.{row_at};
ghost use Rattle.loop_sim.specs.inside.Stages.{IsSample, IsStage, lines_from, lines_left, lines_past, lines_after};

use crate::noise_generator::draw;
use crate::sim_line::SimLine;
use controller_table::{Table, has_arrived};
use game_core::Row;
use grid_quantiser::Point;
use plant_record::step;

/// A sample of a closed loop.
#[derive(Clone, Copy)]
pub(crate) struct Sample {
    pub time: u32,
    pub x: Point,
    /// The samples that may follow.
    pub left: u32,
    /// The state of the noises' generator before this sample.
    pub state: u64,
    /// That state as the trace began. Contracts alone need it.
    pub seed: u64,
}

/// What comes next in a trace.
#[derive(Clone, Copy)]
pub(crate) enum Stage {
    /// The lines of a sample, and what is after them.
    Due(Sample),
    /// The last line.
    Ending(SimLine),
    Over,
}

/// The first line of a sample, and what is after it.
pub(crate) fn first_line(t: &Table, sample: &Sample) -> (SimLine, Stage)
    requires plant { IsWithinLimits t.now.plant }
    requires rows { RowsFit t.now.plant t.now.rows }
    requires fits { ∥ HasNoOverflow t.now.plant ∥₁ }
    requires sample { IsSample t.now.plant sample.now }
    ensures lines { lines_from t.now sample.now ≡ result.0 ∷ lines_left t.now result.1 }
    ensures stage { IsStage t.now.plant result.1 }
{
    let Sample { time, x, .. } = *sample;
    match t.row_at(&x) {
        Some(row) => (SimLine::At { time, x, row }, after(t, sample, row)),
        None => (SimLine::Lost { time, x }, Stage::Over),
    }
}

/// What is after the first line of a sample.
fn after(t: &Table, sample: &Sample, row: Row) -> Stage
    requires plant { IsWithinLimits t.now.plant }
    requires rows { RowsFit t.now.plant t.now.rows }
    requires fits { ∥ HasNoOverflow t.now.plant ∥₁ }
    requires sample { IsSample t.now.plant sample.now }
    requires row { row_at t.now.plant t.now.rows sample.now.x ≡ Some row }
    ensures lines { lines_left t.now result ≡ lines_after t.now sample.now row }
    ensures stage { IsStage t.now.plant result }
{
    let time = sample.time;
    if has_arrived(t.plant().goal(), row) {
        Stage::Ending(SimLine::Arrived { time })
    } else if sample.left == 0 {
        Stage::Ending(SimLine::Stopped { time })
    } else {
        Stage::Due(next_sample(t, sample, row))
    }
}

/// The sample after one that is not the last.
fn next_sample(t: &Table, sample: &Sample, row: Row) -> Sample
    requires plant { IsWithinLimits t.now.plant }
    requires rows { RowsFit t.now.plant t.now.rows }
    requires fits { ∥ HasNoOverflow t.now.plant ∥₁ }
    requires sample { IsSample t.now.plant sample.now }
    requires row { row_at t.now.plant t.now.rows sample.now.x ≡ Some row }
    requires left { 0 < sample.now.left }
    ensures sample { IsSample t.now.plant result }
    ensures lines { lines_from t.now result ≡ lines_past t.now sample.now row }
{
    let p = t.plant();
    let (noises, state) = draw(p, sample.state);
    let Some(x) = step(p, &sample.x, row.input, &noises) else {
        unreachable!()
    };
    Sample {
        time: sample.time + 1,
        x,
        left: sample.left - 1,
        state,
        seed: sample.seed,
    }
}

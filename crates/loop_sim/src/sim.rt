ghost use Rattle.std.specs.Prelude.{◌≡◌, ◌≤◌, ◌∷◌, [], IfSome, IfNone, SomeIff};
ghost use Rattle.successor_box.specs.Deviations.{HasNoOverflow, deviations_of};
ghost use Rattle.loop_sim.specs.Trace.{HasSomeRowAt, trace_lines, trace_from};
ghost use Rattle.base.specs.declared.limits.TheConstants.{SAMPLES_LIMIT};

use crate::closed_loop::{Sample, Stage, first_line};
use crate::sim_line::SimLine;
use controller_table::Table;
use controller_table::laws::every_table_fits;
use grid_quantiser::Point;
use std::marker::Model;
use successor_box::Slopes;

/// A plant in closed loop with its table. Seen as the lines of its trace that are still to come.
#[derive(Drop)]
pub struct Sim<'a> {
    table: &'a Table,
    stage: Stage,
}

impl<'a> Model for Sim<'a> {
    ghost use Rattle.std.specs.Prelude.{◌≡◌, List};
    ghost use Rattle.plant_record.specs.Limits.{IsWithinLimits};
    ghost use Rattle.successor_box.specs.Deviations.{HasNoOverflow};
    ghost use Rattle.controller_table.specs.Tables.{RowsFit};
    ghost use Rattle.loop_sim.specs.declared.sim_line.SimLine.{SimLine};
    ghost use Rattle.loop_sim.specs.inside.Stages.{lines_left, IsStage};

    ghost Value = { List SimLine };

    ghost view = { λ s. lines_left s.table.now s.stage };

    ghost invariant = { λ s. ∥ HasNoOverflow s.table.now.plant ∥₁ × IsStage s.table.now.plant s.stage × IsWithinLimits s.table.now.plant × RowsFit s.table.now.plant s.table.now.rows };
}

impl<'a> Sim<'a> {
    /// The trace from a state's point, with 0 past the states. Its noises begin at the seed, and at most as
    /// many samples are after the first: None where the table has no row at the state.
    pub fn new(t: &'a Table, s: &'a Slopes, x: &Point, seed: u64, steps: u32) -> Option<Sim<'a>>
        requires slopes { s.now ≡ deviations_of t.now.plant }
        requires fits { HasNoOverflow t.now.plant }
        requires steps { steps ≤ SAMPLES_LIMIT }
        ensures { SomeIff result (HasSomeRowAt t.now x.now) (trace_from t.now seed steps x.now) }
    {
        t.row_at(x)?;
        Some(Sim::begin(t, t.plant().state_point(x), seed, steps))
    }

    /// The trace from a state on, whether the table has a row there or not.
    pub(crate) fn begin(t: &'a Table, x: Point, seed: u64, steps: u32) -> Sim<'a>
        requires fits { HasNoOverflow t.now.plant }
        requires steps { steps ≤ SAMPLES_LIMIT }
        ensures { result ≡ trace_lines t.now.plant t.now.rows seed steps 0 x }
    {
        every_table_fits(t);
        Sim {
            table: t,
            stage: Stage::Due(Sample {
                time: 0,
                x,
                left: steps,
                state: seed,
                seed,
            }),
        }
    }

    /// The next line of the trace.
    pub fn next(&mut self) -> Option<SimLine>
        ensures line { IfSome result (λ line. self.old ≡ line ∷ self.new) }
        ensures none { IfNone result (self.old ≡ []) }
        ensures stays { IfNone result (self.new ≡ []) }
    {
        let (line, stage) = match self.stage {
            Stage::Due(sample) => first_line(self.table, &sample),
            Stage::Ending(line) => (line, Stage::Over),
            Stage::Over => return None,
        };
        self.stage = stage;
        Some(line)
    }
}

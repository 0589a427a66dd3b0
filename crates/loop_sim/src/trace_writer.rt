ghost use Rattle.std.specs.Prelude.{◌≡◌, ◌≤◌, SomeIff};
ghost use Rattle.successor_box.specs.Deviations.{HasNoOverflow};
ghost use Rattle.loop_sim.specs.Trace.{HasSomeRowAt};
ghost use Rattle.loop_sim.specs.TraceText.{trace_text};
ghost use Rattle.base.specs.declared.limits.TheConstants.{SAMPLES_LIMIT};

use crate::sim::Sim;
use crate::trace_line::{write_first, write_line};
use controller_table::Table;
use grid_quantiser::Point;
use row_runs::LineText;
use std::marker::Model;
use text_pieces::{Pieces, copy_prefix};

/// Writes the text of a trace piece by piece. Seen as the bytes that are still to come.
#[derive(Drop)]
pub struct TraceWriter<'a> {
    table: &'a Table,
    /// What is left of the line that is being written.
    line: LineText,
    /// The lines after it.
    sim: Sim<'a>,
}

impl<'a> Model for TraceWriter<'a> {
    ghost use Rattle.std.specs.Prelude.{List, ℕ, ◌++◌, map};
    ghost use Rattle.std.specs.List.{concat};
    ghost use Rattle.loop_sim.specs.TraceText.{line_text};

    ghost Value = { List ℕ };

    ghost view = { λ w. w.line ++ concat (map (line_text w.table.now.plant) w.sim) };
}

impl<'a> TraceWriter<'a> {
    /// The writer of the trace from a state: None where the table has no row there.
    pub fn new(t: &'a Table, x: &Point, seed: u64, steps: u32) -> Option<TraceWriter<'a>>
        requires fits { HasNoOverflow t.now.plant }
        requires steps { steps ≤ SAMPLES_LIMIT }
        ensures { SomeIff result (HasSomeRowAt t.now x.now) (trace_text t.now.plant t.now.rows x.now seed steps) }
    {
        t.row_at(x)?;
        let mut line = LineText::empty();
        write_first(&mut line);
        Some(TraceWriter {
            table: t,
            line,
            sim: Sim::begin(t, *x, seed, steps),
        })
    }
}

impl Pieces for TraceWriter<'_> {
    ghost left = { λ w. w };

    fn copy_some(&mut self, buf: &mut [u8]) -> usize {
        if self.line.as_slice().is_empty() {
            let Some(line) = self.sim.next() else {
                return 0;
            };
            write_line(&mut self.line, self.table.plant(), &line);
        }
        let count = copy_prefix(self.line.as_slice(), buf);
        self.line.advance(count);
        count
    }
}

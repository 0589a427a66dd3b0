//! The spans of an equation over cells in a line.
ghost use Rattle.std.specs.Prelude.{◌≡◌, ℕ, ◌<◌, ◌≤◌, length, slice_index_or, pos, ◌+ℤ◌};
ghost use Rattle.base.specs.declared.limits.TheConstants.{VARIABLES_LIMIT};
ghost use Rattle.fixed_expr.specs.declared.lanes.TheConstants.{LANES};
ghost use Rattle.fixed_expr.specs.Expression.{expression_of};
ghost use Rattle.expr_lanes.specs.LaneEval.{lane_of};
ghost use Rattle.fixed_expr.specs.NarrowValues.{IsNarrow};
ghost use Rattle.fixed_expr.specs.Value.{IsWellFormed};
ghost use Rattle.interval_eval.specs.LaneSpans.{interval_in, area_in};
ghost use Rattle.interval_eval.specs.Span.{SpanStaysInRange, span_of};
ghost use Rattle.plant_record.specs.Description.{vectors_of};
ghost use Rattle.successor_box.specs.inside.Area.{variables_of, no_range};
ghost use Rattle.successor_box.specs.inside.Lines.{HoldsInFirst, HoldsInLanes, HaveValuesUnder, HoldSpans, AreCellAreas, HoldCellRanges};

use crate::area::{NO_RANGE, offset};
use crate::sampled::Sampled;
use base::limits::VARIABLES_LIMIT;
use expr_lanes::ValuesAlong;
use fixed_expr::{Expr, LANES};
use interval_eval::{Interval, IntervalColumn, NO_INTERVALS, span, span_lanes};

impl Sampled<'_> {
    /// The span of an equation over each cell in the first lanes, so many.
    #[tactic(auto, using(crate::proofs::CellRanges::cell_stays, crate::proofs::CellRanges::equation_is, crate::proofs::CellRanges::formed_at, crate::proofs::CellRanges::area_lane_is))]
    pub(crate) fn spans(
        &self,
        input: u32,
        state: u32,
        at: &ValuesAlong<'_>,
        lanes: usize,
    ) -> [Interval; LANES]
        requires input { input < vectors_of self.now.plant.now.inputs }
        requires state { state < length self.now.plant.now.equations }
        requires values { HaveValuesUnder self.now.plant.now input at.now }
        requires few { lanes ≤ LANES }
        ensures { HoldSpans lanes self.now.plant.now at.now input state result }
    {
        let p = self.plant;
        let area = self.cell_columns(at);
        spans_in_lanes(p.equation(state), &area[..p.variables() as usize], lanes)
    }

    /// The ranges of the variables over the cells, one column for each. Nothing is said of the columns past the last.
    fn cell_columns(&self, at: &ValuesAlong<'_>) -> [IntervalColumn; VARIABLES_LIMIT]
        requires { (u : ℕ) × HaveValuesUnder self.now.plant.now u at.now }
        ensures { AreCellAreas self.now.plant.now at.now result }
    {
        let mut area = [NO_INTERVALS; VARIABLES_LIMIT];
        for k in 0..self.plant.variables() {
            area[k as usize] = self.cell_column(at, k);
        }
        area
    }

    /// The ranges of one variable: its values at the centres, shifted by how far the ends of its range lie from there.
    fn cell_column(&self, at: &ValuesAlong<'_>, k: u32) -> IntervalColumn
        requires values { (u : ℕ) × HaveValuesUnder self.now.plant.now u at.now }
        requires variable { k < variables_of self.now.plant.now }
        ensures { HoldCellRanges self.now.plant.now at.now k result }
    {
        let offset = offset(self.plant, k);
        let centres = column(at, k);
        IntervalColumn {
            lo: moved(&centres, offset.lo as i64),
            hi: moved(&centres, offset.hi as i64),
        }
    }
}

/// The values of one variable.
fn column(at: &ValuesAlong<'_>, k: u32) -> [i64; LANES]
    requires { k < length at.now.values.now }
    ensures { HoldsInLanes (pos 0) (λ lane. slice_index_or (lane_of at.now lane) k (pos 0)) result }
{
    if k == at.along {
        *at.column
    } else {
        [at.values[k as usize]; LANES]
    }
}

/// Each number shifted by another.
fn moved(numbers: &[i64; LANES], by: i64) -> [i64; LANES]
    requires { (j : ℕ) → j < LANES → IsNarrow (slice_index_or numbers.now j (pos 0) +ℤ by) }
    ensures { HoldsInLanes (pos 0) (λ j. slice_index_or numbers.now j (pos 0) +ℤ by) result }
{
    let mut moved = [0; LANES];
    for j in 0..LANES {
        moved[j] = numbers[j] + by;
    }
    moved
}

/// The span of an expression in each of the first lanes, so many: in 64 bits for all lanes at once, or lane by lane where that
/// leaves them.
fn spans_in_lanes(e: &Expr, columns: &[IntervalColumn], lanes: usize) -> [Interval; LANES]
    requires formed { IsWellFormed (expression_of e.now) (length columns.now) }
    requires few { length columns.now ≤ VARIABLES_LIMIT }
    requires lanes { lanes ≤ LANES }
    requires fits { (j : ℕ) → j < lanes → SpanStaysInRange (expression_of e.now) (area_in columns.now j) }
    ensures { HoldsInFirst lanes no_range (λ j. span_of (expression_of e.now) (area_in columns.now j)) result }
{
    let mut narrow = NO_INTERVALS;
    match span_lanes(e, columns, &mut narrow) {
        Some(()) => widened(&narrow),
        None => wide_spans_in_lanes(e, columns, lanes),
    }
}

/// The same intervals in 128 bits.
#[inline]
fn widened(narrow: &IntervalColumn) -> [Interval; LANES]
    ensures { HoldsInLanes no_range (λ j. interval_in narrow.now j) result }
{
    let mut wide = [NO_RANGE; LANES];
    for j in 0..LANES {
        wide[j] = narrow.interval_at(j);
    }
    wide
}

/// The span of an expression in each of the first lanes, one lane after the other.
#[cold]
fn wide_spans_in_lanes(e: &Expr, columns: &[IntervalColumn], lanes: usize) -> [Interval; LANES]
    requires formed { IsWellFormed (expression_of e.now) (length columns.now) }
    requires few { length columns.now ≤ VARIABLES_LIMIT }
    requires lanes { lanes ≤ LANES }
    requires fits { (j : ℕ) → j < lanes → SpanStaysInRange (expression_of e.now) (area_in columns.now j) }
    ensures { HoldsInFirst lanes no_range (λ j. span_of (expression_of e.now) (area_in columns.now j)) result }
{
    let mut spans = [NO_RANGE; LANES];
    for j in 0..lanes {
        spans[j] = span_in_lane(e, columns, j);
    }
    spans
}

/// The span of an expression in one lane.
fn span_in_lane(e: &Expr, columns: &[IntervalColumn], j: usize) -> Interval
    requires formed { IsWellFormed (expression_of e.now) (length columns.now) }
    requires few { length columns.now ≤ VARIABLES_LIMIT }
    requires lane { j < LANES }
    requires fits { SpanStaysInRange (expression_of e.now) (area_in columns.now j) }
    ensures { result ≡ span_of (expression_of e.now) (area_in columns.now j) }
{
    let mut area = [NO_RANGE; VARIABLES_LIMIT];
    for k in 0..columns.len() {
        area[k] = columns[k].interval_at(j);
    }
    match span(e, &area[..columns.len()]) {
        Some(ends) => ends,
        None => unreachable!(),
    }
}

//! The extents of cells in a line under an input vector.
ghost use Rattle.std.specs.Prelude.{◌≡◌, ℕ, ◌<◌, ◌≤◌, pos, length, slice_index_or, IfSome};
ghost use Rattle.base.specs.declared.limits.TheConstants.{VARIABLES_LIMIT};
ghost use Rattle.fixed_expr.specs.declared.lanes.TheConstants.{LANES};
ghost use Rattle.fixed_expr.specs.Expression.{expression_of};
ghost use Rattle.expr_lanes.specs.LaneEval.{lane_of, AreValuesInLanes};
ghost use Rattle.fixed_expr.specs.Value.{IsWellFormed, StaysInRange, value_of};
ghost use Rattle.plant_record.specs.declared.version.PlantVersion.TheVariants.{One};
ghost use Rattle.plant_record.specs.Description.{vectors_of};
ghost use Rattle.plant_record.specs.Steps.{equation_at};
ghost use Rattle.successor_box.specs.CellLines.{HaveCentres, HoldExtentsAtCentres};
ghost use Rattle.successor_box.specs.AdditiveInputs.{IsAdditiveAt};
ghost use Rattle.successor_box.specs.inside.Area.{no_range};
ghost use Rattle.successor_box.specs.inside.Lines.{HoldsInFirst, HoldsInLanes, HaveValuesUnder, HoldGrowths, HoldNextIntervals, HoldExtentsAround, HoldExtentsOf, GivesValues, intersection_in};

use crate::additive::AdditiveLine;
use crate::area::NO_RANGE;
use crate::cell_line::CellLine;
use crate::extents::intersection;
use crate::sampled::Sampled;
use base::limits::VARIABLES_LIMIT;
use expr_lanes::{ValuesAlong, eval_along};
use fixed_expr::{Expr, LANES, eval};
use grid_quantiser::Extent;
use interval_eval::Interval;
use plant_record::PlantVersion;

/// So many lanes are evaluated one by one, which costs less than all lanes at once.
const FEW_LANES: usize = 2;

impl Sampled<'_> {
    /// The extents of successor boxes along the axis of a state extended by its own length below, from which `Grid::shifted_extent`
    /// goes on, each None where one of the box's ends leaves that too: of the first cells of a line, under its input vector. It takes
    /// no memory. With what `additive_line` gives of the line the equation isn't evaluated again.
    #[tactic(auto, using(crate::proofs::AdditiveInputs::gives_values))]
    pub fn extents_under(
        &self,
        state: u32,
        additive: Option<&AdditiveLine<'_>>,
        line: &CellLine,
        extents: &mut [Option<Extent>],
    )
        requires state { state < length self.now.plant.now.equations }
        requires additive { IfSome additive (λ a. IsAdditiveAt self.now.plant.now line.now state a.now) }
        requires line { HaveCentres self.now.plant.now line.now }
        requires few { length extents.old ≤ LANES }
        ensures long { length extents.new ≡ length extents.old }
        ensures each { HoldExtentsAtCentres self.now.plant.now line.now state extents.new }
    {
        let p = self.plant;
        let input = line.input;
        let at = line.lanes(p);
        match p.plant_version() {
            PlantVersion::One => self.growth_extents(input, state, additive, &at, extents),
            PlantVersion::Two => self.next_extents(input, state, &at, extents),
        }
    }

    /// The extents between the ends of the growth bounds: at once from values in 64 bits, which most equations never leave.
    #[tactic(auto, using(crate::proofs::CellRanges::equation_is, crate::proofs::CellRanges::formed_at, crate::proofs::CellRanges::value_in))]
    fn growth_extents(
        &self,
        input: u32,
        state: u32,
        additive: Option<&AdditiveLine<'_>>,
        at: &ValuesAlong<'_>,
        extents: &mut [Option<Extent>],
    )
        requires version { self.now.plant.now.version ≡ One }
        requires input { input < vectors_of self.now.plant.now.inputs }
        requires state { state < length self.now.plant.now.equations }
        requires line { IfSome additive (λ a. GivesValues (equation_at self.now.plant.now state) at.now input a.now) }
        requires values { HaveValuesUnder self.now.plant.now input at.now }
        requires few { length extents.old ≤ LANES }
        ensures long { length extents.new ≡ length extents.old }
        ensures each { HoldExtentsOf self.now.plant.now at.now input state extents.new }
    {
        let mut values = [0; LANES];
        let equation = self.plant.equation(state);
        match eval_beside(equation, input, additive, at, extents.len(), &mut values) {
            Some(()) => self.narrow_extents(input, state, &values, extents),
            None => self.next_extents(input, state, at, extents),
        }
    }

    /// The extents between the ends of the growth bounds around these values.
    #[tactic(auto, using(crate::proofs::DeviationLanes::lane_count, crate::proofs::DeviationLanes::deviation_is, crate::proofs::ExtentEnds::extent_of_growth, crate::proofs::ExtentEnds::deviation_some))]
    fn narrow_extents(
        &self,
        input: u32,
        state: u32,
        values: &[i64; LANES],
        extents: &mut [Option<Extent>],
    )
        requires version { self.now.plant.now.version ≡ One }
        requires input { input < vectors_of self.now.plant.now.inputs }
        requires state { state < length self.now.plant.now.equations }
        requires few { length extents.old ≤ LANES }
        ensures long { length extents.new ≡ length extents.old }
        ensures each { HoldExtentsAround self.now.plant.now values.now input state extents.new }
    {
        let quantiser = self.plant.grid().extended_quantiser(state);
        let deviation = self.slopes.of(state, input);
        for j in 0..extents.len() {
            extents[j] = quantiser.extent_around(i128::from(values[j]), deviation);
        }
    }

    /// The extents between the ends of where an equation leads: in version 1 only for few cells, or where a value leaves 64 bits.
    fn next_extents(
        &self,
        input: u32,
        state: u32,
        at: &ValuesAlong<'_>,
        extents: &mut [Option<Extent>],
    )
        requires input { input < vectors_of self.now.plant.now.inputs }
        requires state { state < length self.now.plant.now.equations }
        requires values { HaveValuesUnder self.now.plant.now input at.now }
        requires few { length extents.old ≤ LANES }
        ensures long { length extents.new ≡ length extents.old }
        ensures each { HoldExtentsOf self.now.plant.now at.now input state extents.new }
    {
        let next_intervals = self.next_intervals(input, state, at, extents.len());
        let quantiser = self.plant.grid().extended_quantiser(state);
        for j in 0..extents.len() {
            extents[j] = quantiser.extent(next_intervals[j].lo, next_intervals[j].hi);
        }
    }

    /// Where an equation leads from the cells in the first lanes, so many.
    fn next_intervals(
        &self,
        input: u32,
        state: u32,
        at: &ValuesAlong<'_>,
        lanes: usize,
    ) -> [Interval; LANES]
        requires input { input < vectors_of self.now.plant.now.inputs }
        requires state { state < length self.now.plant.now.equations }
        requires values { HaveValuesUnder self.now.plant.now input at.now }
        requires few { lanes ≤ LANES }
        ensures { HoldNextIntervals lanes self.now.plant.now at.now input state result }
    {
        let growth_intervals = self.growth_intervals(input, state, at, lanes);
        match self.plant.plant_version() {
            PlantVersion::One => growth_intervals,
            PlantVersion::Two => {
                intersections(&growth_intervals, &self.spans(input, state, at, lanes))
            }
        }
    }

    /// The value of an equation at the centre of each cell in the first lanes, less and plus how far it moves within the cell.
    #[tactic(auto, using(crate::proofs::CellRanges::few_variables, crate::proofs::CellRanges::value_in, crate::proofs::NextIntervals::growth_is))]
    fn growth_intervals(
        &self,
        input: u32,
        state: u32,
        at: &ValuesAlong<'_>,
        lanes: usize,
    ) -> [Interval; LANES]
        requires input { input < vectors_of self.now.plant.now.inputs }
        requires state { state < length self.now.plant.now.equations }
        requires values { HaveValuesUnder self.now.plant.now input at.now }
        requires few { lanes ≤ LANES }
        ensures { HoldGrowths lanes self.now.plant.now at.now input state result }
    {
        let next = values_in_lanes(self.plant.equation(state), at, lanes);
        let mut growth_intervals = [NO_RANGE; LANES];
        for j in 0..lanes {
            growth_intervals[j] = self.growth(next[j], input, state);
        }
        growth_intervals
    }
}

/// The values of an expression in the lanes under an input vector, by those of a line where it is given, unless one leaves 64
/// bits or few lanes are wanted. After None nothing is said of `found`.
fn eval_beside(
    e: &Expr,
    input: u32,
    additive: Option<&AdditiveLine<'_>>,
    at: &ValuesAlong<'_>,
    lanes: usize,
    found: &mut [i64; LANES],
) -> Option<()>
    requires formed { IsWellFormed (expression_of e.now) (length at.now.values.now) }
    requires additive { IfSome additive (λ a. GivesValues (expression_of e.now) at.now input a.now) }
    ensures { IfSome result (λ _. AreValuesInLanes (expression_of e.now) at.now found.new) }
{
    match additive {
        Some(additive) => additive.values_under(input, found),
        None if lanes <= FEW_LANES => None,
        None => eval_along(e, at, found),
    }
}

/// What the intervals of each lane have in common.
fn intersections(first: &[Interval; LANES], second: &[Interval; LANES]) -> [Interval; LANES]
    ensures { HoldsInLanes no_range (intersection_in first.now second.now) result }
{
    let mut intersections = [NO_RANGE; LANES];
    for j in 0..LANES {
        intersections[j] = intersection(first[j], second[j]);
    }
    intersections
}

/// The value of an expression in each of the first lanes, so many: in 64 bits for all lanes at once, or one lane after the other
/// where they are few or a value leaves 64 bits.
fn values_in_lanes(e: &Expr, at: &ValuesAlong<'_>, lanes: usize) -> [i128; LANES]
    requires formed { IsWellFormed (expression_of e.now) (length at.now.values.now) }
    requires few { length at.now.values.now ≤ VARIABLES_LIMIT }
    requires along { at.now.along < length at.now.values.now }
    requires lanes { lanes ≤ LANES }
    requires fits { (j : ℕ) → j < lanes → StaysInRange (expression_of e.now) (lane_of at.now j) }
    ensures { HoldsInFirst lanes (pos 0) (λ j. value_of (expression_of e.now) (lane_of at.now j)) result }
{
    if lanes <= FEW_LANES {
        return values_one_by_one(e, at, lanes);
    }
    let mut narrow = [0; LANES];
    match eval_along(e, at, &mut narrow) {
        Some(()) => widened(&narrow),
        None => values_one_by_one(e, at, lanes),
    }
}

/// The same numbers in 128 bits.
#[inline]
fn widened(narrow: &[i64; LANES]) -> [i128; LANES]
    ensures { HoldsInLanes (pos 0) (λ j. slice_index_or narrow.now j (pos 0)) result }
{
    let mut wide = [0; LANES];
    for j in 0..LANES {
        wide[j] = i128::from(narrow[j]);
    }
    wide
}

/// The value of an expression in each of the first lanes, one lane after the other.
fn values_one_by_one(e: &Expr, at: &ValuesAlong<'_>, lanes: usize) -> [i128; LANES]
    requires formed { IsWellFormed (expression_of e.now) (length at.now.values.now) }
    requires few { length at.now.values.now ≤ VARIABLES_LIMIT }
    requires along { at.now.along < length at.now.values.now }
    requires lanes { lanes ≤ LANES }
    requires fits { (j : ℕ) → j < lanes → StaysInRange (expression_of e.now) (lane_of at.now j) }
    ensures { HoldsInFirst lanes (pos 0) (λ j. value_of (expression_of e.now) (lane_of at.now j)) result }
{
    let mut values = [0; LANES];
    for j in 0..lanes {
        values[j] = value_in_lane(e, at, j);
    }
    values
}

/// The value of an expression in one lane.
fn value_in_lane(e: &Expr, at: &ValuesAlong<'_>, j: usize) -> i128
    requires formed { IsWellFormed (expression_of e.now) (length at.now.values.now) }
    requires few { length at.now.values.now ≤ VARIABLES_LIMIT }
    requires along { at.now.along < length at.now.values.now }
    requires lane { j < LANES }
    requires fits { StaysInRange (expression_of e.now) (lane_of at.now j) }
    ensures { result ≡ value_of (expression_of e.now) (lane_of at.now j) }
{
    let count = at.values.len();
    let mut values = [0; VARIABLES_LIMIT];
    for k in 0..count {
        values[k] = i128::from(at.values[k]);
    }
    values[at.along as usize] = i128::from(at.column[j]);
    match eval(e, &values[..count]) {
        Some(value) => value,
        None => unreachable!(),
    }
}

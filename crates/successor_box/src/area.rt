//! The ranges and the radii of a plant's variables.

ghost use Rattle.std.specs.Prelude.{◌≡◌, ℕ, ◌<◌, length, take, slice_index_or, pos, neg_ℤ, ◌-ℤ◌};
ghost use Rattle.grid_quantiser.specs.Axes.{cells_of};
ghost use Rattle.grid_quantiser.specs.Cells.{radius_of};
ghost use Rattle.plant_record.specs.Limits.{IsWithinLimits};
ghost use Rattle.plant_record.specs.Description.{axes_of, vectors_of};
ghost use Rattle.successor_box.specs.SuccessorBoxes.{cell_area_of, radii_of};
ghost use Rattle.successor_box.specs.inside.Area.{IsArea, area_from, AreRadii, offsets_of, no_range, variables_of, axis_along};

use crate::noise_centres::noise_offset;
use base::limits::VARIABLES_LIMIT;
use grid_quantiser::Point;
use interval_eval::Interval;
use plant_record::{Plant, Variable};

pub(crate) const NO_RANGE: Interval = Interval { lo: 0, hi: 0 };

/// Where each variable lies under an input vector. Nothing is said of what stands past the last variable.
pub(crate) fn domain_area(p: &Plant, input: u32) -> [Interval; VARIABLES_LIMIT]
    requires plant { IsWithinLimits p.now }
    requires input { input < vectors_of p.now.inputs }
    ensures { IsArea p.now input result }
{
    let grid = p.grid();
    let last = grid.cells() - 1;
    area_between(p, &grid.low(0), &grid.high(last), input)
}

/// Where each variable lies while the state is in a cell, under an input vector. Nothing is said of what stands past the
/// last variable.
pub(crate) fn cell_area(p: &Plant, c: u32, input: u32) -> [Interval; VARIABLES_LIMIT]
    requires cell { c < cells_of (axes_of p.now) }
    requires input { input < vectors_of p.now.inputs }
    ensures { take (variables_of p.now) result ≡ cell_area_of p.now c input }
{
    let grid = p.grid();
    area_between(p, &grid.low(c), &grid.high(c), input)
}

/// Where each variable lies, the states from one point to another.
fn area_between(p: &Plant, low: &Point, high: &Point, input: u32) -> [Interval; VARIABLES_LIMIT]
    requires { input < vectors_of p.now.inputs }
    ensures { take (variables_of p.now) result ≡ area_from p.now low.now high.now input }
{
    let mut area = [NO_RANGE; VARIABLES_LIMIT];
    for k in 0..p.variables() {
        area[k as usize] = range(p, low, high, input, k);
    }
    area
}

/// Where one variable lies, the states from one point to another.
#[tactic(auto, using(crate::proofs::Ranges::state_between, crate::proofs::Ranges::input_between))]
fn range(p: &Plant, low: &Point, high: &Point, input: u32, k: u32) -> Interval
    requires plant { IsWithinLimits p.now }
    requires input { input < vectors_of p.now.inputs }
    requires variable { k < variables_of p.now }
    ensures { result ≡ slice_index_or (area_from p.now low.now high.now input) k no_range }
{
    match p.variable(k) {
        Variable::State(i) => Interval {
            lo: low[i as usize],
            hi: high[i as usize],
        },
        Variable::Input(i) => {
            let value = p.input_value(input, i);
            Interval {
                lo: value,
                hi: value,
            }
        }
        Variable::Noise(i) => {
            let (lo, hi) = p.noise_range(i);
            Interval { lo, hi }
        }
    }
}

/// How far the ends of a variable's range over a cell lie from its value at the centre.
#[tactic(auto, using(crate::proofs::CellOffsets::state_offset, crate::proofs::CellOffsets::input_offset, crate::proofs::CellOffsets::noise_offset_is))]
pub(crate) fn offset(p: &Plant, k: u32) -> Interval
    requires plant { IsWithinLimits p.now }
    requires variable { k < variables_of p.now }
    ensures { (u : ℕ) → result ≡ slice_index_or (offsets_of p.now u) k no_range }
{
    match p.variable(k) {
        Variable::State(i) => cell_offset(p, i),
        Variable::Input(_) => NO_RANGE,
        Variable::Noise(i) => noise_offset(p, i),
    }
}

/// The same of a state.
fn cell_offset(p: &Plant, state: u32) -> Interval
    requires plant { IsWithinLimits p.now }
    requires state { state < length p.now.states }
    ensures low { result.lo ≡ neg_ℤ (radius_of (axis_along p.now state)) }
    ensures high { result.hi ≡ ((axis_along p.now state).width -ℤ pos 1) -ℤ radius_of (axis_along p.now state) }
{
    let grid = p.grid();
    let radius = grid.radius(state);
    Interval {
        lo: -radius,
        hi: grid.width(state) - 1 - radius,
    }
}

/// How far each variable is at most from its centre. Nothing is said of what stands past the last variable.
pub(crate) fn radii(p: &Plant) -> [i128; VARIABLES_LIMIT]
    ensures { AreRadii p.now result }
{
    let mut radii = [0; VARIABLES_LIMIT];
    for k in 0..p.variables() {
        radii[k as usize] = radius(p, k);
    }
    radii
}

/// How far a variable is at most from its centre: an input not at all.
#[tactic(auto, using(crate::proofs::Ranges::state_radius, crate::proofs::Ranges::input_radius, crate::proofs::Ranges::noise_radius))]
fn radius(p: &Plant, k: u32) -> i128
    requires plant { IsWithinLimits p.now }
    requires variable { k < variables_of p.now }
    ensures { (u : ℕ) → result ≡ slice_index_or (radii_of p.now u) k (pos 0) }
{
    match p.variable(k) {
        Variable::State(i) => p.grid().radius(i),
        Variable::Input(_) => 0,
        Variable::Noise(i) => noise_offset(p, i).hi,
    }
}

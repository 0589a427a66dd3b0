//! The parts of a plant, and what the limits need to know of them.

ghost use Rattle.std.specs.Prelude.{◌≡◌, ◌/◌, ◌^◌, ◌<◌, ◌≤◌, ◌↔◌, ◌+ℤ◌, ◌-ℤ◌, length, map, take, nat_abs, pos, IfOk, IsErr};
ghost use Rattle.std.specs.List.{All};
ghost use Rattle.grid_quantiser.specs.Axes.{cells_of};
ghost use Rattle.plant_record.specs.Description.{axis_of, value_counts};
ghost use Rattle.line_words.specs.Numbers.{IsLiteral};
ghost use Rattle.plant_record.specs.Variables.{IsStateVariable, IsInputVariable};
ghost use Rattle.base.specs.declared.limits.TheConstants.{CELLS_LIMIT, INPUTS_LIMIT, STATES_LIMIT};

use crate::aims::{GoalKind, StateBox};
use crate::variables::{InputVariable, StateVariable, Variables};
use crate::version::PlantVersion;
use base::limits::{INPUTS_LIMIT, STATES_LIMIT};
use fixed_expr::Expr;
use grid_quantiser::{Axis, Grid, NO_AXIS, TooManyCells};

/// What a plant text says, with nothing counted yet.
#[derive(Drop)]
pub struct PlantParts {
    pub version: PlantVersion,
    pub variables: Variables,
    pub equations: Vec<Expr>,
    pub targets: Vec<StateBox>,
    pub obstacles: Vec<StateBox>,
    pub goal: GoalKind,
}

/// How many values each input variable has, and 0 past the last.
pub fn value_counts(inputs: &[InputVariable]) -> [u32; INPUTS_LIMIT]
    requires bound { length inputs.now ≤ INPUTS_LIMIT }
    requires each { All IsInputVariable inputs.now }
    ensures { take (length inputs.now) result ≡ value_counts inputs.now }
{
    let mut counts = [0; INPUTS_LIMIT];
    for (i, input) in inputs.iter().enumerate() {
        counts[i] = input.values.len() as u32;
    }
    counts
}

/// The grid of the states, unless it has too many cells.
pub fn grid_of(states: &[StateVariable]) -> Result<Grid, TooManyCells>
    requires some { 1 ≤ length states.now }
    requires bound { length states.now ≤ STATES_LIMIT }
    requires each { All IsStateVariable states.now }
    ensures ok { IfOk result (λ grid. grid ≡ map axis_of states.now) }
    ensures refused { IsErr result ↔ (CELLS_LIMIT < cells_of (map axis_of states.now)) }
{
    let mut axes = [NO_AXIS; STATES_LIMIT];
    for (i, state) in states.iter().enumerate() {
        axes[i] = axis_of(state);
    }
    Grid::new(&axes[..states.len()])
}

fn axis_of(state: &StateVariable) -> Axis
    requires { IsStateVariable state.now }
    ensures { result ≡ axis_of state.now }
{
    Axis {
        lo: state.low,
        width: state.width,
        count: quotient(
            numbers_along(state.low, state.high),
            state.width.unsigned_abs(),
        ),
    }
}

/// How many whole numbers a range has, both ends included, where `low` is at most `high`.
pub fn numbers_along(low: i128, high: i128) -> u128
    requires low { IsLiteral low }
    requires high { IsLiteral high }
    ensures { result ≡ nat_abs ((high -ℤ low) +ℤ pos 1) }
{
    (high - low + 1).unsigned_abs()
}

fn quotient(numbers: u128, width: u128) -> u64
    requires width { 0 < width }
    requires bound { numbers / width < 2 ^ 64 }
    ensures { result ≡ numbers / width }
{
    (numbers / width) as u64
}

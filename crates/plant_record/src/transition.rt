ghost use Rattle.std.specs.Prelude.{◌≡◌, ◌+◌, ◌≤◌, ◌<◌, length, pos, slice_index_or, take};
ghost use Rattle.std.specs.List.{All};
ghost use Rattle.fixed_expr.specs.Expression.{expression_of};
ghost use Rattle.fixed_expr.specs.Value.{IsWellFormed, Evaluates};
ghost use Rattle.plant_record.specs.Description.{vectors_of};
ghost use Rattle.plant_record.specs.Limits.{IsWithinLimits};
ghost use Rattle.plant_record.specs.Steps.{equation_at, values_at, AnswersStep};
ghost use Rattle.base.specs.declared.limits.TheConstants.{STATES_LIMIT};
ghost use Rattle.plant_record.specs.inside.EquationValues.{EvaluatesEach};

use crate::plant::Plant;
use crate::variables::Variable;
use base::limits::{STATES_LIMIT, VARIABLES_LIMIT};
use fixed_expr::{Expr, eval};
use grid_quantiser::Point;

/// The state one sample later, all equations taken at the old state: None where the value of some
/// node leaves the range. It takes no memory.
pub fn step(p: &Plant, x: &Point, input: u32, noise: &Point) -> Option<Point>
    requires { input < vectors_of p.now.inputs }
    ensures { AnswersStep result p.now x.now input noise.now }
{
    let values = values_at(p, x, input, noise);
    next_point(p.equations(), &values[..p.variables() as usize])
}

/// One state of the next, as `step` gives it: None where the value of some node of its equation leaves
/// the range.
pub fn step_along(p: &Plant, x: &Point, input: u32, noise: &Point, state: u32) -> Option<i128>
    requires input { input < vectors_of p.now.inputs }
    requires state { state < length p.now.equations }
    ensures { Evaluates result (equation_at p.now state) (values_at p.now x.now input noise.now) }
{
    let values = values_at(p, x, input, noise);
    eval(p.equation(state), &values[..p.variables() as usize])
}

/// The values of the variables, and 0 past them.
fn values_at(p: &Plant, x: &Point, input: u32, noise: &Point) -> [i128; VARIABLES_LIMIT]
    requires { input < vectors_of p.now.inputs }
    ensures { take (length p.now.states + length p.now.inputs + length p.now.noises) result ≡ values_at p.now x.now input noise.now }
{
    let mut values = [0; VARIABLES_LIMIT];
    for k in 0..p.variables() {
        values[k as usize] = value_at(p, x, input, noise, k);
    }
    values
}

/// The value of one variable.
#[tactic(auto, using(crate::proofs::lemmas::VariableValues::state_value, crate::proofs::lemmas::VariableValues::input_value, crate::proofs::lemmas::VariableValues::noise_value))]
fn value_at(p: &Plant, x: &Point, input: u32, noise: &Point, k: u32) -> i128
    requires plant { IsWithinLimits p.now }
    requires input { input < vectors_of p.now.inputs }
    requires variable { k < length p.now.states + length p.now.inputs + length p.now.noises }
    ensures { result ≡ slice_index_or (values_at p.now x.now input noise.now) k (pos 0) }
{
    match p.variable(k) {
        Variable::State(i) => x[i as usize],
        Variable::Input(i) => p.input_value(input, i),
        Variable::Noise(i) => noise[i as usize],
    }
}

/// The equations' values, one for each state.
fn next_point(equations: &[Expr], values: &[i128]) -> Option<Point>
    requires few { length equations.now ≤ STATES_LIMIT }
    requires formed { All (λ e. IsWellFormed (expression_of e) (length values.now)) equations.now }
    ensures { EvaluatesEach expression_of result equations.now values.now }
{
    let mut next = [0; STATES_LIMIT];
    for (i, equation) in equations.iter().enumerate() {
        next[i] = eval(equation, values)?;
    }
    Some(next)
}

//! Values in 64 bits, in many lanes at once: several times as fast a value as in one lane.

ghost use Rattle.std.specs.Prelude.{◌≡◌, ℕ, ◌<◌, pos, neg_ℤ, nat_abs, ◌≤ℤ◌, length, slice_index_or};
ghost use Rattle.fixed_expr.specs.declared.lanes.TheConstants.{LANES};
ghost use Rattle.fixed_expr.specs.Curves.{curve_value};
ghost use Rattle.fixed_expr.specs.Expression.{expression_of};
ghost use Rattle.fixed_expr.specs.Lanes.{at, IsColumnOf, AnswersLanes};
ghost use Rattle.fixed_expr.specs.DivExpr.{floor_div};
ghost use Rattle.fixed_expr.specs.Value.{IsWellFormed};
ghost use Rattle.expr_lanes.specs.LaneEval.{lane_of, EvaluatesLanes};
ghost use Rattle.fixed_expr.specs.inside.Combinations.{combined_number, combination};
ghost use Rattle.expr_lanes.specs.inside.LaneValues.{combined_numbers, value_in, AreNumbers, AnswersNumbers, AnswersValues};

use fixed_expr::lanes::{
    abs_lanes, add_lanes, copy_lanes, div_lanes, lut_lanes, max_lanes, min_lanes, mul_lanes,
    neg_lanes, sub_lanes,
};
use fixed_expr::narrow::narrow;
use fixed_expr::{Binary, Curve, Expr, LANES, combine};

/// The values of an expression in many lanes: one that is the same in all of them, or those in a list.
#[derive(Clone, Copy)]
enum LaneValues {
    Alike(i64),
    Listed,
}

/// Values of variables in each of `LANES` lanes: those of one variable stand in a column, every other one has the same
/// value in all lanes.
#[derive(Clone, Copy)]
pub struct ValuesAlong<'a> {
    pub values: &'a [i64],
    pub along: u32,
    pub column: &'a [i64; LANES],
}

/// The values of an expression in each of `LANES` lanes: None where the value of some node in some lane, or a divisor, leaves
/// 64 bits. Each level of the expression takes a frame of the stack, with 8 bytes for each lane in it. After None nothing is
/// said of `found`.
pub fn eval_along(e: &Expr, at: &ValuesAlong<'_>, found: &mut [i64; LANES]) -> Option<()>
    requires { IsWellFormed (expression_of e.now) (length at.now.values.now) }
    ensures { EvaluatesLanes result (expression_of e.now) at.now found.new }
{
    let values = eval_values(e, at, found)?;
    list(values, found);
    Some(())
}

/// The values of an expression. What rests on the variables alone that are the same in all lanes is worked out once.
#[cycle(values)]
fn eval_values(e: &Expr, at: &ValuesAlong<'_>, found: &mut [i64; LANES]) -> Option<LaneValues>
    requires { IsWellFormed (expression_of e.now) (length at.now.values.now) }
    ensures { AnswersValues result (expression_of e.now) at.now found.new }
{
    match e {
        Expr::Num(k) => Some(LaneValues::Alike(narrow(*k)?)),
        Expr::Var(i) => Some(variable_values(*i, at, found)),
        Expr::Add(a, b) => eval_values_binary(Binary::AddOp, a, b, at, found),
        Expr::Sub(a, b) => eval_values_binary(Binary::SubOp, a, b, at, found),
        Expr::Mul(a, b) => eval_values_binary(Binary::MulOp, a, b, at, found),
        Expr::Min(a, b) => eval_values_binary(Binary::MinOp, a, b, at, found),
        Expr::Max(a, b) => eval_values_binary(Binary::MaxOp, a, b, at, found),
        Expr::Neg(a) => {
            let values = eval_values(a, at, found)?;
            negate_values(values, found)
        }
        Expr::Div(a, k) => {
            let divisor = narrow(*k)?;
            let values = eval_values(a, at, found)?;
            Some(divide_values(values, divisor, found))
        }
        Expr::Abs(a) => {
            let values = eval_values(a, at, found)?;
            make_values_absolute(values, found)
        }
        Expr::Lut(a, curve) => {
            let values = eval_values(a, at, found)?;
            Some(look_values_up(values, curve, found))
        }
    }
}

/// The values of a variable.
#[tactic(auto, using(crate::proofs::VariableLanes::value_along, crate::proofs::VariableLanes::value_elsewhere))]
fn variable_values(i: u32, at: &ValuesAlong<'_>, found: &mut [i64; LANES]) -> LaneValues
    requires { i < length at.now.values.now }
    ensures { AreNumbers result found.new (λ k. slice_index_or (lane_of at.now k) i (pos 0)) }
{
    if i == at.along {
        copy_lanes(found, at.column);
        return LaneValues::Listed;
    }
    LaneValues::Alike(at.values[i as usize])
}

/// The values of two expressions combined.
#[cycle(values)]
fn eval_values_binary(
    binary: Binary,
    a: &Expr,
    b: &Expr,
    at: &ValuesAlong<'_>,
    found: &mut [i64; LANES],
) -> Option<LaneValues>
    requires first { IsWellFormed (expression_of a.now) (length at.now.values.now) }
    requires second { IsWellFormed (expression_of b.now) (length at.now.values.now) }
    ensures { AnswersValues result (combination binary a.now b.now) at.now found.new }
{
    let mut other = [0; LANES];
    let left = eval_values(a, at, found)?;
    let right = eval_values(b, at, &mut other)?;
    combine_values(binary, left, right, found, &mut other)
}

fn combine_values(
    binary: Binary,
    left: LaneValues,
    right: LaneValues,
    found: &mut [i64; LANES],
    other: &mut [i64; LANES],
) -> Option<LaneValues>
    ensures { AnswersNumbers result found.new (combined_numbers binary left found.old right other.old) }
{
    if let (LaneValues::Alike(x), LaneValues::Alike(y)) = (left, right) {
        return Some(LaneValues::Alike(combine(binary, x, y)?));
    }
    list(left, found);
    list(right, other);
    combine_lanes(binary, found, other)?;
    Some(LaneValues::Listed)
}

fn negate_values(values: LaneValues, found: &mut [i64; LANES]) -> Option<LaneValues>
    ensures { AnswersNumbers result found.new (λ k. neg_ℤ (value_in values found.old k)) }
{
    match values {
        LaneValues::Alike(z) => Some(LaneValues::Alike(z.checked_neg()?)),
        LaneValues::Listed => {
            neg_lanes(found)?;
            Some(LaneValues::Listed)
        }
    }
}

fn make_values_absolute(values: LaneValues, found: &mut [i64; LANES]) -> Option<LaneValues>
    ensures { AnswersNumbers result found.new (λ k. pos (nat_abs (value_in values found.old k))) }
{
    match values {
        LaneValues::Alike(z) => Some(LaneValues::Alike(z.checked_abs()?)),
        LaneValues::Listed => {
            abs_lanes(found)?;
            Some(LaneValues::Listed)
        }
    }
}

fn divide_values(values: LaneValues, divisor: i64, found: &mut [i64; LANES]) -> LaneValues
    requires { pos 1 ≤ℤ divisor }
    ensures { AreNumbers result found.new (λ k. floor_div (value_in values found.old k) divisor) }
{
    match values {
        LaneValues::Alike(z) => LaneValues::Alike(z.div_euclid(divisor)),
        LaneValues::Listed => {
            div_lanes(found, divisor);
            LaneValues::Listed
        }
    }
}

/// The values of a table.
fn look_values_up(values: LaneValues, curve: &Curve, found: &mut [i64; LANES]) -> LaneValues
    ensures { AreNumbers result found.new (λ k. curve_value curve.now (value_in values found.old k)) }
{
    match values {
        LaneValues::Alike(z) => LaneValues::Alike(curve.narrow_value(z)),
        LaneValues::Listed => {
            lut_lanes(found, curve);
            LaneValues::Listed
        }
    }
}

/// Lists a value that is the same in all lanes.
fn list(values: LaneValues, lanes: &mut [i64; LANES])
    ensures { IsColumnOf lanes.new (λ k. value_in values lanes.old k) }
{
    if let LaneValues::Alike(z) = values {
        lanes.fill(z);
    }
}

fn combine_lanes(binary: Binary, found: &mut [i64; LANES], other: &[i64; LANES]) -> Option<()>
    ensures { AnswersLanes result found.new (λ k. combined_number binary (at found.old k) (at other.now k)) }
{
    match binary {
        Binary::AddOp => add_lanes(found, other),
        Binary::SubOp => sub_lanes(found, other),
        Binary::MulOp => mul_lanes(found, other),
        Binary::MinOp => {
            min_lanes(found, other);
            Some(())
        }
        Binary::MaxOp => {
            max_lanes(found, other);
            Some(())
        }
    }
}

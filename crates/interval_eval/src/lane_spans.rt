//! Spans in 64 bits, in many lanes at once.

ghost use Rattle.std.specs.Prelude.{length};
ghost use Rattle.fixed_expr.specs.Expression.{expression_of};
ghost use Rattle.fixed_expr.specs.Value.{IsWellFormed};
ghost use Rattle.fixed_expr.specs.inside.Combinations.{combined};
ghost use Rattle.interval_eval.specs.LaneSpans.{AnswersSpans};

use crate::columns::{IntervalColumn, NO_INTERVALS};
use fixed_expr::lanes::copy_lanes;
use fixed_expr::narrow::narrow;
use fixed_expr::{Binary, Expr};

/// The spans of an expression in each of `LANES` lanes of ranges of its variables, given by columns: None where
/// an end of some node's span in some lane, or a divisor, leaves 64 bits. After None nothing is said of `found`.
#[cycle(lane_spans)]
#[tactic(auto, using(crate::proofs::AreaColumns::low_in_lane, crate::proofs::AreaColumns::high_in_lane, crate::proofs::AreaColumns::lookup_in_lanes))]
pub fn span_lanes(e: &Expr, columns: &[IntervalColumn], found: &mut IntervalColumn) -> Option<()>
    requires { IsWellFormed (expression_of e.now) (length columns.now) }
    ensures { AnswersSpans result (expression_of e.now) columns.now found.new }
{
    match e {
        Expr::Num(k) => {
            let k = narrow(*k)?;
            found.lo.fill(k);
            found.hi.fill(k);
            Some(())
        }
        Expr::Var(i) => {
            let column = &columns[*i as usize];
            copy_lanes(&mut found.lo, &column.lo);
            copy_lanes(&mut found.hi, &column.hi);
            Some(())
        }
        Expr::Neg(a) => {
            span_lanes(a, columns, found)?;
            found.neg_spans()
        }
        Expr::Add(a, b) => span_combined(Binary::AddOp, a, b, columns, found),
        Expr::Sub(a, b) => span_combined(Binary::SubOp, a, b, columns, found),
        Expr::Mul(a, b) => span_combined(Binary::MulOp, a, b, columns, found),
        Expr::Min(a, b) => span_combined(Binary::MinOp, a, b, columns, found),
        Expr::Max(a, b) => span_combined(Binary::MaxOp, a, b, columns, found),
        Expr::Div(a, k) => {
            let divisor = narrow(*k)?;
            span_lanes(a, columns, found)?;
            found.div_spans(divisor);
            Some(())
        }
        Expr::Abs(a) => {
            span_lanes(a, columns, found)?;
            found.abs_spans()
        }
        Expr::Lut(a, curve) => {
            span_lanes(a, columns, found)?;
            found.lut_spans(curve)
        }
    }
}

/// The spans of two expressions combined.
#[cycle(lane_spans)]
fn span_combined(
    binary: Binary,
    a: &Expr,
    b: &Expr,
    columns: &[IntervalColumn],
    found: &mut IntervalColumn,
) -> Option<()>
    requires first { IsWellFormed (expression_of a.now) (length columns.now) }
    requires second { IsWellFormed (expression_of b.now) (length columns.now) }
    ensures { AnswersSpans result (combined binary (expression_of a.now) (expression_of b.now)) columns.now found.new }
{
    let mut other = NO_INTERVALS;
    span_lanes(a, columns, found)?;
    span_lanes(b, columns, &mut other)?;
    found.combine(binary, &other)
}

ghost use Rattle.std.specs.Prelude.{◌≡◌, pos, ◌≤ℤ◌, ℤ, List, length, All, SomeIff, IfSome};
ghost use Rattle.fixed_expr.specs.Expression.{expression_of};
ghost use Rattle.fixed_expr.specs.Value.{IsWellFormed, value_of};
ghost use Rattle.interval_eval.specs.Span.{AreIn, SpanStaysInRange, span_of};
ghost use Rattle.growth_bound.specs.Deviation.{IsNear, AreNear, DeviationStaysInRange, deviation_of};
ghost use Rattle.growth_bound.specs.inside.Bounds.{bounds_of};

use crate::bounds::Bounds;
use fixed_expr::Expr;
use interval_eval::Interval;

/// How far the value of an expression moves at most, where each variable lies in its range of the
/// area and moves by at most its radius, which isn't negative: None where an end of some node's span, or
/// some node's deviation, leaves the range.
pub fn deviation(e: &Expr, area: &[Interval], radii: &[i128]) -> Option<i128>
    requires well_formed { IsWellFormed (expression_of e.now) (length area.now) }
    requires one_for_each { length radii.now ≡ length area.now }
    requires not_negative { All (λ r. pos 0 ≤ℤ r) radii.now }
    ensures exact { SomeIff result
        (SpanStaysInRange (expression_of e.now) area.now
        × DeviationStaysInRange (expression_of e.now) area.now radii.now)
        (pos (deviation_of (expression_of e.now) area.now radii.now)) }
    ensures bounds { IfSome result (λ d.
        (xs ys : List ℤ) → AreIn area.now xs → AreIn area.now ys → AreNear radii.now xs ys →
        IsNear d (value_of (expression_of e.now) xs) (value_of (expression_of e.now) ys)) }
{
    Some(span_and_deviation(e, area, radii)?.1)
}

/// The span of an expression beside its deviation, found together: None where an end of some node's span,
/// or some node's deviation, leaves the range.
pub fn span_and_deviation(e: &Expr, area: &[Interval], radii: &[i128]) -> Option<(Interval, i128)>
    requires well_formed { IsWellFormed (expression_of e.now) (length area.now) }
    requires one_for_each { length radii.now ≡ length area.now }
    ensures { SomeIff result
        (SpanStaysInRange (expression_of e.now) area.now
        × DeviationStaysInRange (expression_of e.now) area.now radii.now)
        (span_of (expression_of e.now) area.now, pos (deviation_of (expression_of e.now) area.now radii.now)) }
{
    let found = bounds(e, area, radii)?;
    Some((found.span, found.deviation as i128))
}

fn bounds(e: &Expr, area: &[Interval], radii: &[i128]) -> Option<Bounds>
    requires well_formed { IsWellFormed (expression_of e.now) (length area.now) }
    requires one_for_each { length radii.now ≡ length area.now }
    ensures { SomeIff result
        (SpanStaysInRange (expression_of e.now) area.now
        × DeviationStaysInRange (expression_of e.now) area.now radii.now)
        (bounds_of (expression_of e.now) area.now radii.now) }
{
    match e {
        Expr::Num(k) => Bounds::num_bounds(*k),
        Expr::Var(i) => Bounds::var_bounds(area[*i as usize], radii[*i as usize]),
        Expr::Neg(a) => bounds(a, area, radii)?.neg_bounds(),
        Expr::Add(a, b) => bounds(a, area, radii)?.add_bounds(bounds(b, area, radii)?),
        Expr::Sub(a, b) => bounds(a, area, radii)?.sub_bounds(bounds(b, area, radii)?),
        Expr::Mul(a, b) => bounds(a, area, radii)?.mul_bounds(bounds(b, area, radii)?),
        Expr::Div(a, k) => bounds(a, area, radii)?.div_bounds(*k),
        Expr::Min(a, b) => bounds(a, area, radii)?.min_bounds(bounds(b, area, radii)?),
        Expr::Max(a, b) => bounds(a, area, radii)?.max_bounds(bounds(b, area, radii)?),
        Expr::Abs(a) => bounds(a, area, radii)?.abs_bounds(),
        Expr::Lut(a, curve) => bounds(a, area, radii)?.lut_bounds(curve),
    }
}

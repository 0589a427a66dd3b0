//! Piecewise-linear functions, which a table of points gives.

ghost use Rattle.std.specs.Prelude.{◌≡◌, ◌<◌, ◌*◌, ◌^◌, pos, ◌*ℤ◌, ◌≤ℤ◌, ◌<ℤ◌, nat_abs, IfOk};
ghost use Rattle.fixed_expr.specs.DivExpr.{floor_div};
ghost use Rattle.fixed_expr.specs.Curves.{IsCurve, IsShort, curve_value, value_along};
ghost use Rattle.fixed_expr.specs.inside.Passed.{ArePassed};
ghost use Rattle.base.specs.declared.limits.TheConstants.{NUMBER_LIMIT};

use base::NoMemory;
use std::alloc::Global;
use std::marker::Model;

/// A function that goes straight from point to point, and stays as it is before the first and after
/// the last. Seen as its points.
#[derive(Drop)]
pub struct Curve {
    points: Vec<(i128, i128)>,
}

impl Model for Curve {
    ghost use Rattle.std.specs.Prelude.{List, ℤ};

    ghost Value = { List (ℤ × ℤ) };

    ghost use Rattle.fixed_expr.specs.Curves.{IsCurve};

    ghost view = { λ c. c.points.items };

    ghost invariant = { λ c. IsCurve c.points.items };
}

impl Curve {
    /// The curve through 2 to 32 points, each an argument and a value of at most 18 digits. The
    /// arguments rise.
    pub fn new(alloc: Global, points: &[(i128, i128)]) -> Result<Curve, NoMemory>
        requires { IsCurve points.now }
        ensures { IfOk result (λ c. c ≡ points.now) }
    {
        let points = Vec::from_slice(alloc, points)?;
        Ok(Curve { points })
    }

    /// The points.
    pub fn points(&self) -> &[(i128, i128)]
        ensures points { result.now ≡ self.now }
        ensures curve { IsCurve self.now }
    {
        &self.points
    }

    /// The value at a number.
    pub fn value(&self, x: i128) -> i128
        ensures value { result ≡ curve_value self.now x }
        ensures short { nat_abs result < NUMBER_LIMIT }
    {
        value_at(self.points(), x)
    }

    /// The same in 64 bits.
    pub fn narrow_value(&self, x: i64) -> i64
        ensures { result ≡ curve_value self.now x }
    {
        self.value(i128::from(x)) as i64
    }
}

/// The value at a number of the curve through these points.
#[tactic(auto, using(crate::proofs::PointsPassed::value_before, crate::proofs::PointsPassed::value_after, crate::proofs::PointsPassed::value_between))]
fn value_at(points: &[(i128, i128)], x: i128) -> i128
    requires { IsCurve points.now }
    ensures value { result ≡ curve_value points.now x }
    ensures short { nat_abs result < NUMBER_LIMIT }
{
    let passed = points_passed(points, x);
    if passed == 0 {
        points[0].1
    } else if passed == points.len() {
        points[passed - 1].1
    } else {
        value_along(points[passed - 1], points[passed], x)
    }
}

/// How many points have arguments up to a number.
fn points_passed(points: &[(i128, i128)], x: i128) -> usize
    requires { IsCurve points.now }
    ensures { ArePassed points.now x result }
{
    points.partition_point(|p| p.0 <= x)
}

/// The value between two points.
fn value_along(p: (i128, i128), q: (i128, i128), x: i128) -> i128
    requires from { IsShort p }
    requires to { IsShort q }
    requires after { p.0 ≤ℤ x }
    requires before { x <ℤ q.0 }
    ensures value { result ≡ value_along p q x }
    ensures short { nat_abs result < NUMBER_LIMIT }
{
    p.1 + part_of(q.1 - p.1, x - p.0, q.0 - p.0)
}

/// How much of a rise over a run lies at a number of steps, rounded down: in 64 bits where the product
/// lies there, since quotients in 128 take several times as long.
fn part_of(rise: i128, steps: i128, run: i128) -> i128
    requires rise { nat_abs rise < 2 * NUMBER_LIMIT }
    requires steps { nat_abs steps < 2 * NUMBER_LIMIT }
    requires run { nat_abs run < 2 * NUMBER_LIMIT }
    requires some { pos 1 ≤ℤ run }
    ensures { result ≡ floor_div (rise *ℤ steps) run }
{
    match (rise as i64).checked_mul(steps as i64) {
        Some(product) => i128::from(product.div_euclid(run as i64)),
        None => (rise * steps).div_euclid(run),
    }
}

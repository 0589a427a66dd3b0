ghost use Rattle.std.specs.Prelude.{◌≡◌, pos, ◌≤ℤ◌, SomeIff};
ghost use Rattle.std.specs.Int.{int_min, int_max};
ghost use Rattle.fixed_expr.specs.Range.{IsInRange};
ghost use Rattle.interval_eval.specs.Span.{EndsFit, neg_span, add_span, sub_span, mul_span, hull_of, div_span, min_span, max_span, abs_span, lut_span};
ghost use Rattle.interval_eval.specs.inside.Joined.{joined_at};

use fixed_expr::Curve;
use fixed_expr::arithmetic::{
    add_in_range, div_in_range, max_in_range, min_in_range, mul_in_range, neg_in_range,
    sub_in_range, within,
};

/// The numbers from `lo` to `hi`, both included. An operation answers None where an end of what it finds leaves the
/// range.
#[derive(Clone, Copy, PartialEq, Eq)]
pub struct Interval {
    pub lo: i128,
    pub hi: i128,
}

impl Interval {
    /// The interval itself, where its ends lie in the range.
    pub fn within(self) -> Option<Interval>
        ensures { SomeIff result (EndsFit self) self }
    {
        within(self.lo)?;
        within(self.hi)?;
        Some(self)
    }

    pub fn neg_span(self) -> Option<Interval>
        ensures { SomeIff result (EndsFit (neg_span self)) (neg_span self) }
    {
        Some(Interval {
            lo: neg_in_range(self.hi)?,
            hi: neg_in_range(self.lo)?,
        })
    }

    pub fn add_span(self, other: Interval) -> Option<Interval>
        ensures { SomeIff result (EndsFit (add_span self other)) (add_span self other) }
    {
        Some(Interval {
            lo: add_in_range(self.lo, other.lo)?,
            hi: add_in_range(self.hi, other.hi)?,
        })
    }

    pub fn sub_span(self, other: Interval) -> Option<Interval>
        ensures { SomeIff result (EndsFit (sub_span self other)) (sub_span self other) }
    {
        Some(Interval {
            lo: sub_in_range(self.lo, other.hi)?,
            hi: sub_in_range(self.hi, other.lo)?,
        })
    }

    /// The least and the greatest of the products of ends.
    #[tactic(auto, using(crate::proofs::Corners::corners_fit))]
    pub fn mul_span(self, other: Interval) -> Option<Interval>
        ensures { SomeIff result (EndsFit (mul_span self other)) (mul_span self other) }
    {
        let first = mul_in_range(self.lo, other.lo)?;
        let second = mul_in_range(self.lo, other.hi)?;
        let third = mul_in_range(self.hi, other.lo)?;
        let fourth = mul_in_range(self.hi, other.hi)?;
        hull(first, second, third, fourth)
    }

    pub fn div_span(self, k: i128) -> Option<Interval>
        requires { pos 1 ≤ℤ k }
        ensures { SomeIff result (EndsFit (div_span self k)) (div_span self k) }
    {
        Some(Interval {
            lo: div_in_range(self.lo, k)?,
            hi: div_in_range(self.hi, k)?,
        })
    }

    pub fn min_span(self, other: Interval) -> Option<Interval>
        ensures { SomeIff result (EndsFit (min_span self other)) (min_span self other) }
    {
        Some(Interval {
            lo: min_in_range(self.lo, other.lo)?,
            hi: min_in_range(self.hi, other.hi)?,
        })
    }

    pub fn max_span(self, other: Interval) -> Option<Interval>
        ensures { SomeIff result (EndsFit (max_span self other)) (max_span self other) }
    {
        Some(Interval {
            lo: max_in_range(self.lo, other.lo)?,
            hi: max_in_range(self.hi, other.hi)?,
        })
    }

    /// The absolute values.
    pub fn abs_span(self) -> Option<Interval>
        ensures { SomeIff result (EndsFit (abs_span self)) (abs_span self) }
    {
        let hi = max_in_range(neg_in_range(self.lo)?, self.hi)?;
        let lo = least_absolute(self)?;
        Some(Interval { lo, hi })
    }

    /// The values of a table.
    pub fn lut_span(self, curve: &Curve) -> Option<Interval>
        ensures { SomeIff result (EndsFit (lut_span curve.now self)) (lut_span curve.now self) }
    {
        self.looked_up(curve).within()
    }

    /// The least and the greatest value of a table.
    pub(crate) fn looked_up(self, curve: &Curve) -> Interval
        ensures { result ≡ lut_span curve.now self }
    {
        let first = curve.value(self.lo);
        let last = curve.value(self.hi);
        let points = curve.points();
        let mut found = Interval {
            lo: first.min(last),
            hi: first.max(last),
        };
        for point in points {
            found = joined(found, *point, self);
        }
        found
    }
}

/// An interval widened to the value at a point, where that lies in a range.
fn joined(found: Interval, point: (i128, i128), range: Interval) -> Interval
    ensures { result ≡ joined_at range found point }
{
    let (x, y) = point;
    if range.lo <= x && x <= range.hi {
        Interval {
            lo: found.lo.min(y),
            hi: found.hi.max(y),
        }
    } else {
        found
    }
}

fn least_absolute(a: Interval) -> Option<i128>
    ensures { SomeIff result (IsInRange (abs_span a).lo) (abs_span a).lo }
{
    if 0 <= a.lo {
        within(a.lo)
    } else if a.hi <= 0 {
        neg_in_range(a.hi)
    } else {
        Some(0)
    }
}

fn least(a: i128, b: i128, c: i128, d: i128) -> i128
    ensures { result ≡ int_min (int_min a b) (int_min c d) }
{
    a.min(b).min(c.min(d))
}

fn greatest(a: i128, b: i128, c: i128, d: i128) -> i128
    ensures { result ≡ int_max (int_max a b) (int_max c d) }
{
    a.max(b).max(c.max(d))
}

fn hull(a: i128, b: i128, c: i128, d: i128) -> Option<Interval>
    ensures { SomeIff result (EndsFit (hull_of a b c d)) (hull_of a b c d) }
{
    Interval {
        lo: least(a, b, c, d),
        hi: greatest(a, b, c, d),
    }
    .within()
}

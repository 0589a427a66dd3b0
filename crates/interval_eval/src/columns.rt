//! Intervals in many lanes, with None where an end leaves 64 bits.
//! A loop's label names its invariant in proofs/.

ghost use Rattle.std.specs.Prelude.{◌≡◌, ◌<◌, pos, ◌≤ℤ◌, ◌*ℤ◌};
ghost use Rattle.fixed_expr.specs.declared.lanes.TheConstants.{LANES};
ghost use Rattle.fixed_expr.specs.NarrowValues.{AnswersNarrow};
ghost use Rattle.fixed_expr.specs.Lanes.{at, IsNarrowColumnOf, AnswersColumn};
ghost use Rattle.interval_eval.specs.Span.{neg_span, add_span, sub_span, mul_span, div_span, min_span, max_span, abs_span, lut_span, hull_of};
ghost use Rattle.interval_eval.specs.LaneSpans.{interval_in, AreNarrowIntervals, IsIntervalColumnOf, AnswersIntervals};
ghost use Rattle.interval_eval.specs.inside.Combined.{combined_column};

use crate::interval::Interval;
use fixed_expr::lanes::{
    add_lanes, div_lanes, max_lanes, min_lanes, mul_lanes, neg_lanes, sub_lanes,
};
use fixed_expr::narrow::narrow;
use fixed_expr::{Binary, Curve, LANES};

/// An interval in each lane, by the low and the high ends.
#[derive(Clone, Copy)]
pub struct IntervalColumn {
    pub lo: [i64; LANES],
    pub hi: [i64; LANES],
}

/// 0 alone in each lane: what a column is before its intervals are found.
pub const NO_INTERVALS: IntervalColumn = IntervalColumn {
    lo: [0; LANES],
    hi: [0; LANES],
};

impl IntervalColumn {
    pub(crate) fn neg_spans(&mut self) -> Option<()>
        ensures { AnswersIntervals result self.new (λ k. neg_span (interval_in self.old k)) }
    {
        let low = self.lo;
        self.lo = self.hi;
        self.hi = low;
        neg_lanes(&mut self.lo)?;
        neg_lanes(&mut self.hi)
    }

    pub(crate) fn add_spans(&mut self, other: &IntervalColumn) -> Option<()>
        ensures { AnswersIntervals result self.new (λ k. add_span (interval_in self.old k) (interval_in other.now k)) }
    {
        add_lanes(&mut self.lo, &other.lo)?;
        add_lanes(&mut self.hi, &other.hi)
    }

    pub(crate) fn sub_spans(&mut self, other: &IntervalColumn) -> Option<()>
        ensures { AnswersIntervals result self.new (λ k. sub_span (interval_in self.old k) (interval_in other.now k)) }
    {
        sub_lanes(&mut self.lo, &other.hi)?;
        sub_lanes(&mut self.hi, &other.lo)
    }

    /// The least and the greatest of the products of ends.
    pub(crate) fn mul_spans(&mut self, other: &IntervalColumn) -> Option<()>
        ensures { AnswersIntervals result self.new (λ k. mul_span (interval_in self.old k) (interval_in other.now k)) }
    {
        let first = products(&self.lo, &other.lo)?;
        let second = products(&self.lo, &other.hi)?;
        let third = products(&self.hi, &other.lo)?;
        let fourth = products(&self.hi, &other.hi)?;
        self.lo = least(&first, &second, &third, &fourth);
        self.hi = greatest(&first, &second, &third, &fourth);
        Some(())
    }

    pub(crate) fn div_spans(&mut self, divisor: i64)
        requires { pos 1 ≤ℤ divisor }
        ensures holds { IsIntervalColumnOf self.new (λ k. div_span (interval_in self.old k) divisor) }
        ensures narrow { AreNarrowIntervals (λ k. div_span (interval_in self.old k) divisor) }
    {
        div_lanes(&mut self.lo, divisor);
        div_lanes(&mut self.hi, divisor);
    }

    pub(crate) fn min_spans(&mut self, other: &IntervalColumn)
        ensures holds { IsIntervalColumnOf self.new (λ k. min_span (interval_in self.old k) (interval_in other.now k)) }
        ensures narrow { AreNarrowIntervals (λ k. min_span (interval_in self.old k) (interval_in other.now k)) }
    {
        min_lanes(&mut self.lo, &other.lo);
        min_lanes(&mut self.hi, &other.hi);
    }

    pub(crate) fn max_spans(&mut self, other: &IntervalColumn)
        ensures holds { IsIntervalColumnOf self.new (λ k. max_span (interval_in self.old k) (interval_in other.now k)) }
        ensures narrow { AreNarrowIntervals (λ k. max_span (interval_in self.old k) (interval_in other.now k)) }
    {
        max_lanes(&mut self.lo, &other.lo);
        max_lanes(&mut self.hi, &other.hi);
    }

    /// The absolute values.
    pub(crate) fn abs_spans(&mut self) -> Option<()>
        ensures { AnswersIntervals result self.new (λ k. abs_span (interval_in self.old k)) }
    {
        'lanes: for k in 0..LANES {
            let lo = least_absolute(self.lo[k], self.hi[k])?;
            self.hi[k] = greatest_absolute(self.lo[k], self.hi[k])?;
            self.lo[k] = lo;
        }
        Some(())
    }

    /// The values of a table.
    pub(crate) fn lut_spans(&mut self, curve: &Curve) -> Option<()>
        ensures { AnswersIntervals result self.new (λ k. lut_span curve.now (interval_in self.old k)) }
    {
        'lanes: for k in 0..LANES {
            let values = self.interval_at(k).looked_up(curve);
            self.lo[k] = narrow(values.lo)?;
            self.hi[k] = narrow(values.hi)?;
        }
        Some(())
    }

    /// The interval in a lane.
    #[inline]
    pub fn interval_at(&self, k: usize) -> Interval
        requires { k < LANES }
        ensures { result ≡ interval_in self.now k }
    {
        Interval {
            lo: i128::from(self.lo[k]),
            hi: i128::from(self.hi[k]),
        }
    }

    /// The values of an operation on two numbers, one of each interval.
    pub(crate) fn combine(&mut self, binary: Binary, other: &IntervalColumn) -> Option<()>
        ensures { AnswersIntervals result self.new (combined_column binary self.old other.now) }
    {
        match binary {
            Binary::AddOp => self.add_spans(other),
            Binary::SubOp => self.sub_spans(other),
            Binary::MulOp => self.mul_spans(other),
            Binary::MinOp => {
                self.min_spans(other);
                Some(())
            }
            Binary::MaxOp => {
                self.max_spans(other);
                Some(())
            }
        }
    }
}

fn least_absolute(lo: i64, hi: i64) -> Option<i64>
    ensures { AnswersNarrow result (abs_span (record { lo = lo; hi = hi })).lo }
{
    if 0 <= lo {
        Some(lo)
    } else if hi <= 0 {
        hi.checked_neg()
    } else {
        Some(0)
    }
}

/// Where the negated low end leaves 64 bits, so does the greatest.
fn greatest_absolute(lo: i64, hi: i64) -> Option<i64>
    ensures { AnswersNarrow result (abs_span (record { lo = lo; hi = hi })).hi }
{
    Some(lo.checked_neg()?.max(hi))
}

fn products(a: &[i64; LANES], b: &[i64; LANES]) -> Option<[i64; LANES]>
    ensures { AnswersColumn result (λ k. at a.now k *ℤ at b.now k) }
{
    let mut found = *a;
    mul_lanes(&mut found, b)?;
    Some(found)
}

fn least(a: &[i64; LANES], b: &[i64; LANES], c: &[i64; LANES], d: &[i64; LANES]) -> [i64; LANES]
    ensures { IsNarrowColumnOf result (λ k. (hull_of (at a.now k) (at b.now k) (at c.now k) (at d.now k)).lo) }
{
    let mut first = *a;
    let mut second = *c;
    min_lanes(&mut first, b);
    min_lanes(&mut second, d);
    min_lanes(&mut first, &second);
    first
}

fn greatest(a: &[i64; LANES], b: &[i64; LANES], c: &[i64; LANES], d: &[i64; LANES]) -> [i64; LANES]
    ensures { IsNarrowColumnOf result (λ k. (hull_of (at a.now k) (at b.now k) (at c.now k) (at d.now k)).hi) }
{
    let mut first = *a;
    let mut second = *c;
    max_lanes(&mut first, b);
    max_lanes(&mut second, d);
    max_lanes(&mut first, &second);
    first
}

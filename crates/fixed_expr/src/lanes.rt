//! Operations on the numbers in many lanes, with None where a result leaves 64 bits. After None nothing is said of `found`.
//! A loop's label names its invariant in proofs/.

ghost use Rattle.std.specs.Prelude.{neg_ℤ, ◌+ℤ◌, ◌-ℤ◌, ◌*ℤ◌, ◌≤ℤ◌, pos, nat_abs};
ghost use Rattle.std.specs.Int.{int_min, int_max};
ghost use Rattle.fixed_expr.specs.DivExpr.{floor_div};
ghost use Rattle.fixed_expr.specs.Curves.{curve_value};
ghost use Rattle.fixed_expr.specs.Lanes.{at, AnswersLanes, IsNarrowColumnOf};

use crate::curve::Curve;
use crate::narrow::floor_quotient;
use base::Divisor;

/// How many lanes are evaluated at once.
pub const LANES: usize = 32;

pub fn copy_lanes(found: &mut [i64; LANES], column: &[i64; LANES])
    ensures { IsNarrowColumnOf found.new (λ k. at column.now k) }
{
    'lanes: for k in 0..LANES {
        found[k] = column[k];
    }
}

pub fn add_lanes(found: &mut [i64; LANES], other: &[i64; LANES]) -> Option<()>
    ensures { AnswersLanes result found.new (λ k. at found.old k +ℤ at other.now k) }
{
    'lanes: for k in 0..LANES {
        found[k] = found[k].checked_add(other[k])?;
    }
    Some(())
}

pub fn sub_lanes(found: &mut [i64; LANES], other: &[i64; LANES]) -> Option<()>
    ensures { AnswersLanes result found.new (λ k. at found.old k -ℤ at other.now k) }
{
    'lanes: for k in 0..LANES {
        found[k] = found[k].checked_sub(other[k])?;
    }
    Some(())
}

pub fn mul_lanes(found: &mut [i64; LANES], other: &[i64; LANES]) -> Option<()>
    ensures { AnswersLanes result found.new (λ k. at found.old k *ℤ at other.now k) }
{
    'lanes: for k in 0..LANES {
        found[k] = found[k].checked_mul(other[k])?;
    }
    Some(())
}

/// The lesser of the two, in each lane.
pub fn min_lanes(found: &mut [i64; LANES], other: &[i64; LANES])
    ensures { IsNarrowColumnOf found.new (λ k. int_min (at found.old k) (at other.now k)) }
{
    'lanes: for k in 0..LANES {
        found[k] = found[k].min(other[k]);
    }
}

/// The greater of the two, in each lane.
pub fn max_lanes(found: &mut [i64; LANES], other: &[i64; LANES])
    ensures { IsNarrowColumnOf found.new (λ k. int_max (at found.old k) (at other.now k)) }
{
    'lanes: for k in 0..LANES {
        found[k] = found[k].max(other[k]);
    }
}

pub fn neg_lanes(found: &mut [i64; LANES]) -> Option<()>
    ensures { AnswersLanes result found.new (λ k. neg_ℤ (at found.old k)) }
{
    'lanes: for k in 0..LANES {
        found[k] = found[k].checked_neg()?;
    }
    Some(())
}

pub fn abs_lanes(found: &mut [i64; LANES]) -> Option<()>
    ensures { AnswersLanes result found.new (λ k. pos (nat_abs (at found.old k))) }
{
    'lanes: for k in 0..LANES {
        found[k] = found[k].checked_abs()?;
    }
    Some(())
}

/// Rounds down, where `/` rounds towards 0.
pub fn div_lanes(found: &mut [i64; LANES], divisor: i64)
    requires { pos 1 ≤ℤ divisor }
    ensures { IsNarrowColumnOf found.new (λ k. floor_div (at found.old k) divisor) }
{
    let divisor = Divisor::new(divisor as u64);
    'lanes: for k in 0..LANES {
        found[k] = floor_quotient(found[k], divisor);
    }
}

/// The values of a table.
pub fn lut_lanes(found: &mut [i64; LANES], curve: &Curve)
    ensures { IsNarrowColumnOf found.new (λ k. curve_value curve.now (at found.old k)) }
{
    'lanes: for k in 0..LANES {
        found[k] = curve.narrow_value(found[k]);
    }
}

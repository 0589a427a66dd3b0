//! Operations on whole numbers, one each, with None where the result leaves the range.

ghost use Rattle.std.specs.Prelude.{◌≡◌, neg_ℤ, ◌+ℤ◌, ◌-ℤ◌, ◌*ℤ◌, ◌≤ℤ◌, pos, nat_abs, SomeIff};
ghost use Rattle.std.specs.Int.{int_min, int_max};
ghost use Rattle.fixed_expr.specs.Range.{IsInRange};
ghost use Rattle.fixed_expr.specs.DivExpr.{floor_div};

/// The number itself. `i128` holds one number more than the range.
pub fn within(z: i128) -> Option<i128>
    ensures { SomeIff result (IsInRange z) z }
{
    if z == i128::MIN { None } else { Some(z) }
}

pub fn neg_in_range(a: i128) -> Option<i128>
    ensures { SomeIff result (IsInRange (neg_ℤ a)) (neg_ℤ a) }
{
    within(a.checked_neg()?)
}

pub fn add_in_range(a: i128, b: i128) -> Option<i128>
    ensures { SomeIff result (IsInRange (a +ℤ b)) (a +ℤ b) }
{
    within(a.checked_add(b)?)
}

pub fn sub_in_range(a: i128, b: i128) -> Option<i128>
    ensures { SomeIff result (IsInRange (a -ℤ b)) (a -ℤ b) }
{
    within(a.checked_sub(b)?)
}

pub fn mul_in_range(a: i128, b: i128) -> Option<i128>
    ensures { SomeIff result (IsInRange (a *ℤ b)) (a *ℤ b) }
{
    within(a.checked_mul(b)?)
}

/// Rounds down, where `/` rounds towards 0.
pub fn div_in_range(a: i128, k: i128) -> Option<i128>
    requires { pos 1 ≤ℤ k }
    ensures { SomeIff result (IsInRange (floor_div a k)) (floor_div a k) }
{
    within(a.div_euclid(k))
}

pub fn min_in_range(a: i128, b: i128) -> Option<i128>
    ensures { SomeIff result (IsInRange (int_min a b)) (int_min a b) }
{
    within(a.min(b))
}

pub fn max_in_range(a: i128, b: i128) -> Option<i128>
    ensures { SomeIff result (IsInRange (int_max a b)) (int_max a b) }
{
    within(a.max(b))
}

pub fn abs_in_range(a: i128) -> Option<i128>
    ensures { SomeIff result (IsInRange (pos (nat_abs a))) (pos (nat_abs a)) }
{
    within(a.checked_abs()?)
}

//! Tests of `fixed_expr`.

use expr_lanes::{ValuesAlong, eval_along};
use fixed_expr::{Curve, Expr, LANES, eval};
use std::alloc::{AllocError, Global};
use std::test::Fail;

/// -5 / 2 is -2.5 and 5 / 2 is 2.5. -(2^64 + 1) / 2 is half below -2^63, past 64 bits.
fn halves_round_down(alloc: Global) -> Result<bool, AllocError> {
    let half = Expr::Div(Box::new(alloc, Expr::Var(0))?, 2);
    Ok(
        eval(&half, &[-5]) == Some(-3)
            && eval(&half, &[5]) == Some(2)
            && eval(&half, &[-(1 << 64) - 1]) == Some(-(1 << 63) - 1),
    )
}

#[test]
fn quotients_round_down(rt: HostRuntime) -> Result<(), Fail> {
    assert!(rt; halves_round_down(rt.alloc())?);
    Ok(())
}

/// 2^64 * 2^64 is 2^128.
fn square_of_2_to_64_has_no_value(alloc: Global) -> Result<bool, AllocError> {
    let square = Expr::Mul(
        Box::new(alloc, Expr::Var(0))?,
        Box::new(alloc, Expr::Var(0))?,
    );
    Ok(eval(&square, &[1 << 64]) == None && eval(&square, &[1 << 32]) == Some(1 << 64))
}

#[test]
fn values_past_the_range_are_none(rt: HostRuntime) -> Result<(), Fail> {
    assert!(rt; square_of_2_to_64_has_no_value(rt.alloc())?);
    Ok(())
}

fn least_number_has_no_value() -> bool {
    eval(&Expr::Num(i128::MIN), &[]) == None && eval(&Expr::Num(i128::MAX), &[]) == Some(i128::MAX)
}

#[test]
fn the_least_128_bit_number_is_out_of_range(rt: HostRuntime) {
    assert!(rt; least_number_has_no_value());
}

/// min(|x0|, max(x1 / 4, x0 - 3)) at x1 = -7, where -7 / 4 is -1.75 and its floor -2: at x0 = -9 the lesser of 9 and
/// max(-2, -12), at 5 of 5 and max(-2, 2), at 20 of 20 and max(-2, 17).
fn lanes_have_their_values(alloc: Global) -> Result<bool, AllocError> {
    let quarter = Expr::Div(Box::new(alloc, Expr::Var(1))?, 4);
    let difference = Expr::Sub(
        Box::new(alloc, Expr::Var(0))?,
        Box::new(alloc, Expr::Num(3))?,
    );
    let greater = Expr::Max(Box::new(alloc, quarter)?, Box::new(alloc, difference)?);
    let size = Expr::Abs(Box::new(alloc, Expr::Var(0))?);
    let e = Expr::Min(Box::new(alloc, size)?, Box::new(alloc, greater)?);
    let mut column = [5; LANES];
    column[0] = -9;
    column[31] = 20;
    let at = ValuesAlong {
        values: &[0, -7],
        along: 0,
        column: &column,
    };
    let mut found = [0; LANES];
    Ok(
        eval_along(&e, &at, &mut found) == Some(())
            && [found[0], found[1], found[30], found[31]] == [-2, 2, 2, 17]
            && eval(&e, &[-9, -7]) == Some(-2),
    )
}

#[test]
fn each_lane_has_its_own_value(rt: HostRuntime) -> Result<(), Fail> {
    assert!(rt; lanes_have_their_values(rt.alloc())?);
    Ok(())
}

/// -2^62 * 2 is -2^63, the least number of 64 bits, and 2^62 * 2 is 2^63, one more than 64 bits hold.
fn one_lane_decides(alloc: Global) -> Result<bool, AllocError> {
    let double = Expr::Mul(
        Box::new(alloc, Expr::Var(0))?,
        Box::new(alloc, Expr::Num(2))?,
    );
    let least = ValuesAlong {
        values: &[0],
        along: 0,
        column: &[-(1 << 62); LANES],
    };
    let mut found = [0; LANES];
    let fits = eval_along(&double, &least, &mut found) == Some(()) && found[31] == i64::MIN;
    let mut column = [-(1 << 62); LANES];
    column[31] = 1 << 62;
    let past = ValuesAlong {
        values: &[0],
        along: 0,
        column: &column,
    };
    Ok(fits && eval_along(&double, &past, &mut found) == None)
}

#[test]
fn one_lane_past_64_bits_leaves_no_answer(rt: HostRuntime) -> Result<(), Fail> {
    assert!(rt; one_lane_decides(rt.alloc())?);
    Ok(())
}

/// ((x1 + (x0 + x0)) + 3 * x3) - x2 mentions the first four variables, and shifts with x1 alone: with x0 it shifts twice as far.
fn only_a_summand_of_its_own_shifts(alloc: Global) -> Result<bool, AllocError> {
    let double = Expr::Add(
        Box::new(alloc, Expr::Var(0))?,
        Box::new(alloc, Expr::Var(0))?,
    );
    let product = Expr::Mul(
        Box::new(alloc, Expr::Num(3))?,
        Box::new(alloc, Expr::Var(3))?,
    );
    let inner = Expr::Add(Box::new(alloc, Expr::Var(1))?, Box::new(alloc, double)?);
    let sum = Expr::Add(Box::new(alloc, inner)?, Box::new(alloc, product)?);
    let e = Expr::Sub(Box::new(alloc, sum)?, Box::new(alloc, Expr::Var(2))?);
    let mentioned = [e.mentions(0), e.mentions(1), e.mentions(2), e.mentions(3)];
    let moving = [
        e.shifts_with(0),
        e.shifts_with(1),
        e.shifts_with(2),
        e.shifts_with(3),
    ];
    Ok(mentioned == [true; 4] && !e.mentions(4) && moving == [false, true, false, false])
}

#[test]
fn a_difference_shifts_with_a_summand_of_its_own(rt: HostRuntime) -> Result<(), Fail> {
    assert!(rt; only_a_summand_of_its_own_shifts(rt.alloc())?);
    Ok(())
}

/// -3/4, -6/4 and -9/4 have the floors -1, -2 and -3. Before 0 and after 4 the values stay as they are.
fn falling_table_rounds_down(alloc: Global) -> Result<bool, Fail> {
    let curve = Curve::new(alloc, &[(0, 0), (4, -3)])?;
    let has_its_points = curve.points() == [(0, 0), (4, -3)].as_slice();
    let e = Expr::Lut(Box::new(alloc, Expr::Var(0))?, curve);
    let inside = [eval(&e, &[1]), eval(&e, &[2]), eval(&e, &[3])];
    let outside = [eval(&e, &[-1]), eval(&e, &[4]), eval(&e, &[9])];
    Ok(
        has_its_points
            && inside == [Some(-1), Some(-2), Some(-3)]
            && outside == [Some(0), Some(-3), Some(-3)],
    )
}

#[test]
fn a_table_rounds_down_and_stays_level_outside(rt: HostRuntime) -> Result<(), Fail> {
    assert!(rt; falling_table_rounds_down(rt.alloc())?);
    Ok(())
}

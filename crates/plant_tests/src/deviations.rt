//! Tests of `growth_bound`.

use fixed_expr::{Curve, Expr};
use growth_bound::deviation;
use interval_eval::{Interval, span};
use std::alloc::{AllocError, Global};
use std::test::Fail;

/// x0 * x1 + x1 / 3 over 0 to 10 and -4 to 4, where they move by 1 and 2: 10 * 2 + 4 * 1 is 24, and 2 / 3,
/// rounded up, is 1.
fn product_and_quotient_move_by_25(alloc: Global) -> Result<bool, AllocError> {
    let product = Expr::Mul(
        Box::new(alloc, Expr::Var(0))?,
        Box::new(alloc, Expr::Var(1))?,
    );
    let third = Expr::Div(Box::new(alloc, Expr::Var(1))?, 3);
    let e = Expr::Add(Box::new(alloc, product)?, Box::new(alloc, third)?);
    let area = [Interval { lo: 0, hi: 10 }, Interval { lo: -4, hi: 4 }];
    Ok(deviation(&e, &area, &[1, 2]) == Some(25))
}

#[test]
fn products_take_magnitudes_and_quotients_round_up(rt: HostRuntime) -> Result<(), Fail> {
    assert!(rt; product_and_quotient_move_by_25(rt.alloc())?);
    Ok(())
}

/// The span is 0 to 0, but twice 2^127 - 1 leaves the range.
fn twice_the_greatest_radius_is_none(alloc: Global) -> Result<bool, AllocError> {
    let twice = Expr::Add(
        Box::new(alloc, Expr::Var(0))?,
        Box::new(alloc, Expr::Var(0))?,
    );
    let area = [Interval { lo: 0, hi: 0 }];
    Ok(
        deviation(&twice, &area, &[i128::MAX]) == None
            && deviation(&twice, &area, &[1 << 125]) == Some(1 << 126),
    )
}

#[test]
fn a_deviation_past_the_range_is_none(rt: HostRuntime) -> Result<(), Fail> {
    assert!(rt; twice_the_greatest_radius_is_none(rt.alloc())?);
    Ok(())
}

/// Over 1 to 9 the values at the ends are 0, the floor of 3/4, and -1; the points 4 and 8 have 3 and -1. By 1 the pieces rise by 3/4 and
/// fall by 4/4, rounded up 1 and 1; by 3 these are 9/4 and 12/4, rounded up 3 and 3.
fn table_reaches_its_points(alloc: Global) -> Result<bool, Fail> {
    let curve = Curve::new(alloc, &[(0, 0), (4, 3), (8, -1)])?;
    let e = Expr::Lut(Box::new(alloc, Expr::Var(0))?, curve);
    let area = [Interval { lo: 1, hi: 9 }];
    Ok(
        span(&e, &area) == Some(Interval { lo: -1, hi: 3 })
            && deviation(&e, &area, &[1]) == Some(1)
            && deviation(&e, &area, &[3]) == Some(3),
    )
}

#[test]
fn a_table_spans_its_points_and_moves_by_its_greatest_rise(rt: HostRuntime) -> Result<(), Fail> {
    assert!(rt; table_reaches_its_points(rt.alloc())?);
    Ok(())
}

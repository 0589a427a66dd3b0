//! Tests of `interval_eval`.

use fixed_expr::{Curve, Expr, LANES};
use interval_eval::laws::{nested_spans_stay, spans_nest};
use interval_eval::{Interval, IntervalColumn, span, span_lanes};
use std::alloc::{AllocError, Global};
use std::test::Fail;

fn interval(lo: i128, hi: i128) -> Interval {
    Interval { lo, hi }
}

/// Over -3 to 2 the products of ends are 9, -6, -6 and 4. 2^64 * 2^64 is 2^128.
fn square_takes_all_corners(alloc: Global) -> Result<bool, AllocError> {
    let square = Expr::Mul(
        Box::new(alloc, Expr::Var(0))?,
        Box::new(alloc, Expr::Var(0))?,
    );
    Ok(
        span(&square, &[interval(-3, 2)]) == Some(interval(-6, 9))
            && span(&square, &[interval(0, 1 << 64)]) == None,
    )
}

#[test]
fn a_product_takes_all_corners(rt: HostRuntime) -> Result<(), Fail> {
    assert!(rt; square_takes_all_corners(rt.alloc())?);
    Ok(())
}

fn absolute_values_reach_down_to_0(alloc: Global) -> Result<bool, AllocError> {
    let e = Expr::Abs(Box::new(alloc, Expr::Var(0))?);
    Ok(
        span(&e, &[interval(-3, 2)]) == Some(interval(0, 3))
            && span(&e, &[interval(-3, -2)]) == Some(interval(2, 3)),
    )
}

#[test]
fn absolute_values_reach_down_to_0_where_the_range_holds_it(rt: HostRuntime) -> Result<(), Fail> {
    assert!(rt; absolute_values_reach_down_to_0(rt.alloc())?);
    Ok(())
}

/// -5 / 2 is -2.5 and 5 / 2 is 2.5.
fn half_of_both_ends_rounds_down(alloc: Global) -> Result<bool, AllocError> {
    let half = Expr::Div(Box::new(alloc, Expr::Var(0))?, 2);
    Ok(span(&half, &[interval(-5, 5)]) == Some(interval(-3, 2)))
}

#[test]
fn both_ends_of_a_quotient_round_down(rt: HostRuntime) -> Result<(), Fail> {
    assert!(rt; half_of_both_ends_rounds_down(rt.alloc())?);
    Ok(())
}

/// The square of -3 to 2 spans -6 to 9, and that of 1 to 2 spans 1 to 4. 2^32 * 2^32 is 2^64, past 64 bits.
fn squares_in_lanes(alloc: Global) -> Result<bool, AllocError> {
    let square = Expr::Mul(
        Box::new(alloc, Expr::Var(0))?,
        Box::new(alloc, Expr::Var(0))?,
    );
    let mut area = [IntervalColumn {
        lo: [-3; LANES],
        hi: [2; LANES],
    }];
    area[0].lo[31] = 1;
    let mut found = area[0];
    let fits = span_lanes(&square, &area, &mut found) == Some(());
    let ends = [found.lo[0], found.hi[0], found.lo[31], found.hi[31]];
    area[0].hi[31] = 1 << 32;
    Ok(fits && ends == [-6, 9, 1, 4] && span_lanes(&square, &area, &mut found) == None)
}

#[test]
fn each_lane_has_its_own_span(rt: HostRuntime) -> Result<(), Fail> {
    assert!(rt; squares_in_lanes(rt.alloc())?);
    Ok(())
}

/// The table has 0 at 0, 8 at 4 and 2 at 10. From 1 to 5 its values are 2 to 8, from 0 to 10 they are 0 to 8.
fn narrower_table_spans(alloc: Global) -> Result<bool, Fail> {
    let curve = Curve::new(alloc, &[(0, 0), (4, 8), (10, 2)])?;
    let e = Expr::Lut(Box::new(alloc, Expr::Var(0))?, curve);
    spans_nest();
    nested_spans_stay();
    Ok(
        span(&e, &[interval(1, 5)]) == Some(interval(2, 8))
            && span(&e, &[interval(0, 10)]) == Some(interval(0, 8)),
    )
}

#[test]
fn narrower_ranges_have_a_narrower_span(rt: HostRuntime) -> Result<(), Fail> {
    assert!(rt; narrower_table_spans(rt.alloc())?);
    Ok(())
}

//! Numbers and the points of a table.

ghost use Rattle.std.specs.Prelude.{◌≡◌, ◌≤◌, ◌<◌, ◌-◌, nat_abs, length, IfOk};
ghost use Rattle.std.specs.List.{All};
ghost use Rattle.fixed_expr.specs.Curves.{IsShort};
ghost use Rattle.expression_reading.specs.inside.ExpressionReading.{Gives, after_colon, literal_at, divisor_at, signed_at, point_at, points_at, rises, curve_at, curve_through};
ghost use Rattle.base.specs.declared.limits.TheConstants.{NUMBER_LIMIT, POINTS_LIMIT};

use crate::token_kind::TokenKind;
use base::limits::{NUMBER_LIMIT, POINTS_LIMIT};
use fixed_expr::Curve;
use line_words::LineFault;
use std::alloc::Global;

/// A number, and the tokens after it.
#[tactic(auto, unfolding(crate::specs::inside::ExpressionReading::literal_at))]
pub fn take_literal(tokens: &[TokenKind]) -> Result<(u64, &[TokenKind]), LineFault>
    ensures number { Gives (λ x. (x.0, x.1.now)) result (literal_at tokens.now) }
    ensures short { IfOk result (λ x. x.0 < NUMBER_LIMIT) }
{
    match tokens {
        [TokenKind::Number(k), rest @ ..] if *k < NUMBER_LIMIT => Ok((*k, rest)),
        _ => Err(LineFault::Malformed),
    }
}

/// A number of at least 1.
#[tactic(auto, unfolding(crate::specs::inside::ExpressionReading::divisor_at))]
pub fn take_divisor(tokens: &[TokenKind]) -> Result<(u64, &[TokenKind]), LineFault>
    ensures number { Gives (λ x. (x.0, x.1.now)) result (divisor_at tokens.now) }
    ensures short { IfOk result (λ x. x.0 < NUMBER_LIMIT) }
{
    let (k, rest) = take_literal(tokens)?;
    if k == 0 {
        return Err(LineFault::Malformed);
    }
    Ok((k, rest))
}

/// A number with its sign.
#[tactic(auto, unfolding(crate::specs::inside::ExpressionReading::signed_at))]
fn take_signed(tokens: &[TokenKind]) -> Result<(i128, &[TokenKind]), LineFault>
    ensures number { Gives (λ x. (x.0, x.1.now)) result (signed_at tokens.now) }
    ensures short { IfOk result (λ x. nat_abs x.0 < NUMBER_LIMIT) }
{
    match tokens {
        [TokenKind::Minus, rest @ ..] => {
            let (k, rest) = take_divisor(rest)?;
            Ok((-i128::from(k), rest))
        }
        _ => {
            let (k, rest) = take_literal(tokens)?;
            Ok((i128::from(k), rest))
        }
    }
}

fn after_colon(tokens: &[TokenKind]) -> Result<&[TokenKind], LineFault>
    ensures { Gives (λ x. x.now) result (after_colon tokens.now) }
{
    match tokens {
        [TokenKind::Colon, rest @ ..] => Ok(rest),
        _ => Err(LineFault::Malformed),
    }
}

/// A point.
#[tactic(auto, unfolding(crate::specs::inside::ExpressionReading::point_at))]
fn take_point(tokens: &[TokenKind]) -> Result<((i128, i128), &[TokenKind]), LineFault>
    ensures point { Gives (λ x. (x.0, x.1.now)) result (point_at tokens.now) }
    ensures short { IfOk result (λ x. IsShort x.0) }
{
    let (x, rest) = take_signed(tokens)?;
    let rest = after_colon(rest)?;
    let (y, rest) = take_signed(rest)?;
    Ok(((x, y), rest))
}

/// At most so many points after others, each after a comma, and the bracket that closes.
#[tactic(auto, unfolding(crate::specs::inside::ExpressionReading::points_at))]
fn take_points(
    points: Vec<(i128, i128)>,
    limit: usize,
    tokens: &[TokenKind],
) -> Result<(Vec<(i128, i128)>, &[TokenKind]), LineFault>
    requires short { All IsShort points.items }
    ensures points { Gives (λ x. (x.0.items, x.1.now)) result (points_at limit points.items tokens.now) }
    ensures short { IfOk result (λ x. All IsShort x.0.items) }
{
    match tokens {
        [TokenKind::Close, rest @ ..] => Ok((points, rest)),
        [TokenKind::Comma, rest @ ..] if limit > 0 => {
            let (point, rest) = take_point(rest)?;
            let mut points = points;
            points.push(point)?;
            take_points(points, limit - 1, rest)
        }
        _ => Err(LineFault::Malformed),
    }
}

/// Whether the arguments of points rise.
fn rises(points: &[(i128, i128)]) -> bool
    ensures { result ≡ rises points.now }
{
    match points {
        [p, q, ..] => p.0 < q.0 && rises(&points[1..]),
        _ => true,
    }
}

/// The table with these points.
fn curve_through(alloc: Global, points: &[(i128, i128)]) -> Result<Curve, LineFault>
    requires few { length points.now ≤ POINTS_LIMIT }
    requires short { All IsShort points.now }
    ensures { Gives (λ curve. curve) result (curve_through points.now) }
{
    if points.len() < 2 || !rises(points) {
        return Err(LineFault::Malformed);
    }
    match Curve::new(alloc, points) {
        Ok(curve) => Ok(curve),
        Err(_) => Err(LineFault::Memory),
    }
}

/// 2 to 32 points that rise with the bracket that closes, and the tokens after that.
#[tactic(auto, unfolding(crate::specs::inside::ExpressionReading::curve_at))]
pub fn take_curve(alloc: Global, tokens: &[TokenKind]) -> Result<(Curve, &[TokenKind]), LineFault>
    ensures { Gives (λ x. (x.0, x.1.now)) result (curve_at tokens.now) }
{
    let (points, rest) = take_points(Vec::new(alloc), POINTS_LIMIT, tokens)?;
    Ok((curve_through(alloc, &points)?, rest))
}

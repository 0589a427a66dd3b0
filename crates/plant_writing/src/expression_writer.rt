//! The text of an expression, in brackets only where its position needs them.

ghost use Rattle.std.specs.Prelude.{◌≡◌, ◌++◌, length, nat_lt, OnOk};
ghost use Rattle.std.specs.List.{flat_map};
ghost use Rattle.std.specs.Fmt.{signed_decimal};
ghost use Rattle.fixed_expr.specs.Expression.{expression_of};
ghost use Rattle.fixed_expr.specs.Value.{IsWellFormed};
ghost use Rattle.plant_writing.specs.ExpressionText.{expression_text, point_text};
ghost use Rattle.plant_writing.specs.inside.WriterLevels.{number_of, own_level};
ghost use Rattle.plant_writing.specs.inside.WrittenTexts.{text_at, pair_text, call_text, lut_text};

use fixed_expr::Expr;
use itoa::Buffer;
use plant_record::Names;
use std::alloc::AllocError;

/// What may stand at a position without brackets: sums, products and all others from there on.
#[derive(Clone, Copy)]
pub enum Level {
    Sum,
    Product,
    Factor,
}

/// Appends the text of an expression at a position that needs a level.
#[cycle(expression)]
pub fn push_expression(
    text: &mut Vec<u8>,
    names: &Names<'_>,
    asked: Level,
    e: &Expr,
) -> Result<(), AllocError>
    requires { IsWellFormed (expression_of e.now) (length names.now) }
    ensures { OnOk result (text.new.items ≡ text.old.items ++ text_at names.now asked e.now) }
{
    if is_below(level_of(e), asked) {
        text.extend_from_slice(b"(")?;
        push_bare(text, names, e)?;
        text.extend_from_slice(b")")
    } else {
        push_bare(text, names, e)
    }
}

/// The text without brackets around all of it.
#[cycle(expression)]
fn push_bare(text: &mut Vec<u8>, names: &Names<'_>, e: &Expr) -> Result<(), AllocError>
    requires { IsWellFormed (expression_of e.now) (length names.now) }
    ensures { OnOk result (text.new.items ≡ text.old.items ++ expression_text names.now 1 (expression_of e.now)) }
{
    match e {
        Expr::Num(k) => push_number(text, *k),
        Expr::Var(i) => text.extend_from_slice(names.name(*i).as_bytes()),
        Expr::Neg(a) => {
            text.extend_from_slice(b"-")?;
            push_expression(text, names, Level::Factor, a)
        }
        Expr::Add(a, b) => push_two(text, names, (Level::Sum, a), b" + ", (Level::Product, b)),
        Expr::Sub(a, b) => push_two(text, names, (Level::Sum, a), b" - ", (Level::Product, b)),
        Expr::Mul(a, b) => push_two(text, names, (Level::Product, a), b" * ", (Level::Factor, b)),
        Expr::Div(a, k) => {
            push_expression(text, names, Level::Product, a)?;
            text.extend_from_slice(b" / ")?;
            push_number(text, *k)
        }
        Expr::Min(a, b) => push_call(text, names, b"min(", a, b),
        Expr::Max(a, b) => push_call(text, names, b"max(", a, b),
        Expr::Abs(a) => {
            text.extend_from_slice(b"abs(")?;
            push_expression(text, names, Level::Sum, a)?;
            text.extend_from_slice(b")")
        }
        Expr::Lut(a, curve) => push_lut(text, names, a, curve.points()),
    }
}

/// A table: its expression, and its points.
#[cycle(expression)]
fn push_lut(
    text: &mut Vec<u8>,
    names: &Names<'_>,
    a: &Expr,
    points: &[(i128, i128)],
) -> Result<(), AllocError>
    requires { IsWellFormed (expression_of a.now) (length names.now) }
    ensures { OnOk result (text.new.items ≡ text.old.items ++ lut_text names.now a.now points.now) }
{
    text.extend_from_slice(b"lut(")?;
    push_expression(text, names, Level::Sum, a)?;
    push_points(text, points)?;
    text.extend_from_slice(b")")
}

/// Each point with the comma before it.
fn push_points(text: &mut Vec<u8>, points: &[(i128, i128)]) -> Result<(), AllocError>
    ensures { OnOk result (text.new.items ≡ text.old.items ++ flat_map point_text points.now) }
{
    for point in points {
        push_point(text, *point)?;
    }
    Ok(())
}

fn push_point(text: &mut Vec<u8>, point: (i128, i128)) -> Result<(), AllocError>
    ensures { OnOk result (text.new.items ≡ text.old.items ++ point_text point) }
{
    text.extend_from_slice(b", ")?;
    push_number(text, point.0)?;
    text.extend_from_slice(b":")?;
    push_number(text, point.1)
}

/// Two expressions at their positions, with a text between.
#[cycle(expression)]
fn push_two(
    text: &mut Vec<u8>,
    names: &Names<'_>,
    left: (Level, &Expr),
    between: &[u8],
    right: (Level, &Expr),
) -> Result<(), AllocError>
    requires left { IsWellFormed (expression_of left.1.now) (length names.now) }
    requires right { IsWellFormed (expression_of right.1.now) (length names.now) }
    ensures { OnOk result (text.new.items ≡ text.old.items ++ pair_text names.now left.entry between.now right.entry) }
{
    push_expression(text, names, left.0, left.1)?;
    text.extend_from_slice(between)?;
    push_expression(text, names, right.0, right.1)
}

/// A minimum or a maximum, from its opening bracket on.
#[cycle(expression)]
fn push_call(
    text: &mut Vec<u8>,
    names: &Names<'_>,
    opening: &[u8],
    a: &Expr,
    b: &Expr,
) -> Result<(), AllocError>
    requires left { IsWellFormed (expression_of a.now) (length names.now) }
    requires right { IsWellFormed (expression_of b.now) (length names.now) }
    ensures { OnOk result (text.new.items ≡ text.old.items ++ call_text names.now opening.now a.now b.now) }
{
    text.extend_from_slice(opening)?;
    push_two(text, names, (Level::Sum, a), b", ", (Level::Sum, b))?;
    text.extend_from_slice(b")")
}

fn level_of(e: &Expr) -> Level
    ensures { number_of result ≡ own_level (expression_of e.now) }
{
    match e {
        Expr::Add(_, _) | Expr::Sub(_, _) => Level::Sum,
        Expr::Mul(_, _) | Expr::Div(_, _) => Level::Product,
        _ => Level::Factor,
    }
}

fn is_below(own: Level, asked: Level) -> bool
    ensures { result ≡ nat_lt (number_of own) (number_of asked) }
{
    (own as u8) < (asked as u8)
}

/// Appends the text of a number.
pub fn push_number(text: &mut Vec<u8>, number: i128) -> Result<(), AllocError>
    ensures { OnOk result (text.new.items ≡ text.old.items ++ signed_decimal number) }
{
    let mut buffer = Buffer::new();
    text.extend_from_slice(buffer.format(number).as_bytes())
}

//! What version 1 asks of equations.

ghost use Rattle.std.specs.Prelude.{◌↔◌, IsTrue};
ghost use Rattle.fixed_expr.specs.Expression.{expression_of};
ghost use Rattle.plant_record.specs.Equations.{HasNoLut};

use fixed_expr::Expr;

/// Whether no part of an expression is a table of points.
pub fn has_no_lut(e: &Expr) -> bool
    ensures { IsTrue result ↔ HasNoLut (expression_of e.now) }
{
    match e {
        Expr::Num(_) | Expr::Var(_) => true,
        Expr::Neg(a) | Expr::Div(a, _) | Expr::Abs(a) => has_no_lut(a),
        Expr::Add(a, b) | Expr::Sub(a, b) | Expr::Mul(a, b) | Expr::Min(a, b) | Expr::Max(a, b) =>
            has_no_lut(a) && has_no_lut(b),
        Expr::Lut(_, _) => false,
    }
}

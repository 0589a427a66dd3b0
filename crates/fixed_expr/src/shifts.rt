ghost use Rattle.std.specs.Prelude.{◌≡◌};
ghost use Rattle.fixed_expr.specs.Expression.{expression_of};
ghost use Rattle.fixed_expr.specs.Shifts.{shifts_with};

use crate::expr::Expr;

impl Expr {
    /// Whether the value shifts with a variable: the expression is the variable, plus or minus parts
    /// that don't mention it, at any depth.
    pub fn shifts_with(&self, variable: u32) -> bool
        ensures { result ≡ shifts_with (expression_of self.now) variable }
    {
        match self {
            Expr::Var(i) => *i == variable,
            Expr::Add(a, b) => {
                (a.shifts_with(variable) && !b.mentions(variable))
                    || (!a.mentions(variable) && b.shifts_with(variable))
            }
            Expr::Sub(a, b) => a.shifts_with(variable) && !b.mentions(variable),
            Expr::Num(_)
            | Expr::Neg(_)
            | Expr::Mul(_, _)
            | Expr::Div(_, _)
            | Expr::Min(_, _)
            | Expr::Max(_, _)
            | Expr::Abs(_)
            | Expr::Lut(_, _) => false,
        }
    }
}

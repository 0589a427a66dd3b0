ghost use Rattle.std.specs.Prelude.{◌≡◌};
ghost use Rattle.fixed_expr.specs.Expression.{expression_of};
ghost use Rattle.fixed_expr.specs.Mentions.{mentions};

use crate::expr::Expr;

impl Expr {
    /// Whether a variable stands in the expression.
    pub fn mentions(&self, variable: u32) -> bool
        ensures { result ≡ mentions (expression_of self.now) variable }
    {
        match self {
            Expr::Num(_) => false,
            Expr::Var(i) => *i == variable,
            Expr::Neg(a) | Expr::Div(a, _) | Expr::Abs(a) | Expr::Lut(a, _) => a.mentions(variable),
            Expr::Add(a, b)
            | Expr::Sub(a, b)
            | Expr::Mul(a, b)
            | Expr::Min(a, b)
            | Expr::Max(a, b) => a.mentions(variable) || b.mentions(variable),
        }
    }
}

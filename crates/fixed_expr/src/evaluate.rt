ghost use Rattle.std.specs.Prelude.{length};
ghost use Rattle.fixed_expr.specs.Expression.{expression_of};
ghost use Rattle.fixed_expr.specs.Value.{IsWellFormed, Evaluates};

use crate::expr::Expr;
use crate::narrow::eval_narrow;
use crate::wide::eval_wide;

/// The value of an expression at these values of its variables: None where the value of some node
/// leaves the range. It takes no memory but a frame of the stack for each level of the expression.
#[tactic(auto, using(crate::proofs::Narrowness::narrow_stays))]
pub fn eval(e: &Expr, values: &[i128]) -> Option<i128>
    requires { IsWellFormed (expression_of e.now) (length values.now) }
    ensures { Evaluates result (expression_of e.now) values.now }
{
    match eval_narrow(e, values) {
        Some(z) => Some(i128::from(z)),
        None => eval_wide(e, values),
    }
}

//! What holds of the tokens of every expression.

ghost use Rattle.expression_reading.specs.Laws.{OneExpression, ExpressionOrNone};

/// No tokens spell two expressions.
pub fn one_expression()
    ensures { OneExpression }
{}

/// Whether tokens spell an expression is decided.
pub fn expression_or_none()
    ensures { ExpressionOrNone }
{}

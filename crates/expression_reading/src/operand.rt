//! Expressions that are being read, with how large they are.

ghost use Rattle.std.specs.Prelude.{◌≡◌, pos, IfOk};
ghost use Rattle.fixed_expr.specs.Expression.{expression_of, NumExpr, VarExpr, NegExpr, AddExpr, SubExpr, MulExpr, DivExpr, MinExpr, MaxExpr, AbsExpr, LutExpr, nodes_of, depth_of};
ghost use Rattle.expression_reading.specs.inside.ExpressionReading.{Gives, kept, nodes_and_depth};

use base::limits::{DEPTH_LIMIT, NODES_LIMIT};
use fixed_expr::{Curve, Expr};
use line_words::LineFault;
use std::alloc::{AllocError, Global};
use std::marker::Model;

/// An expression within the limits. Seen as the expression.
#[derive(Drop)]
pub struct Operand {
    expr: Box<Expr>,
    nodes: u32,
    depth: u32,
}

impl Model for Operand {
    ghost use Rattle.fixed_expr.specs.declared.expr.Expr.{Expr};
    ghost use Rattle.fixed_expr.specs.contracts.expr.Expr as e;
    ghost use Rattle.std.specs.Coded.{codes};

    ghost Value = { Expr };

    ghost coded = { Prim.hlevel (codes, e.the_row.coded) };

    ghost use Rattle.fixed_expr.specs.Expression.{expression_of, nodes_of, depth_of};
    ghost use Rattle.expression_reading.specs.inside.ExpressionReading.{IsSmall};
    ghost use Rattle.std.specs.Prelude.{◌≡◌};

    ghost view = { λ t. t.expr.value };

    ghost invariant = { λ t. (t.nodes ≡ nodes_of (expression_of t.expr.value)) × (t.depth ≡ depth_of (expression_of t.expr.value)) × IsSmall (expression_of t.expr.value) };
}

/// The operand of an expression, refused where it exceeds a limit.
fn kept(alloc: Global, expr: Expr, nodes: u32, depth: u32) -> Result<Operand, LineFault>
    requires nodes { nodes ≡ nodes_of (expression_of expr) }
    requires depth { depth ≡ depth_of (expression_of expr) }
    ensures { Gives expression_of result (kept (expression_of expr)) }
{
    if nodes > NODES_LIMIT || depth > DEPTH_LIMIT {
        return Err(LineFault::Malformed);
    }
    let expr = Box::new(alloc, expr)?;
    Ok(Operand { expr, nodes, depth })
}

impl Operand {
    pub fn num(alloc: Global, k: u64) -> Result<Operand, AllocError>
        ensures { IfOk result (λ t. expression_of t ≡ NumExpr (pos k)) }
    {
        let expr = Box::new(alloc, Expr::Num(i128::from(k)))?;
        Ok(Operand {
            expr,
            nodes: 1,
            depth: 1,
        })
    }

    pub fn var(alloc: Global, i: u32) -> Result<Operand, AllocError>
        ensures { IfOk result (λ t. expression_of t ≡ VarExpr i) }
    {
        let expr = Box::new(alloc, Expr::Var(i))?;
        Ok(Operand {
            expr,
            nodes: 1,
            depth: 1,
        })
    }

    pub fn into_expr(self) -> Expr
        ensures { result ≡ self }
    {
        Box::into_inner(self.expr)
    }

    /// How many nodes there are in this, another and one more, and how many are one below another.
    fn with(&self, other: &Operand) -> (u32, u32)
        ensures { result ≡ nodes_and_depth (expression_of self.now) (expression_of other.now) }
    {
        let deeper = if self.depth < other.depth {
            other.depth
        } else {
            self.depth
        };
        (self.nodes + other.nodes + 1, deeper + 1)
    }

    pub fn neg(self, alloc: Global) -> Result<Operand, LineFault>
        ensures { Gives expression_of result (kept (NegExpr (expression_of self))) }
    {
        kept(alloc, Expr::Neg(self.expr), self.nodes + 1, self.depth + 1)
    }

    pub fn abs(self, alloc: Global) -> Result<Operand, LineFault>
        ensures { Gives expression_of result (kept (AbsExpr (expression_of self))) }
    {
        kept(alloc, Expr::Abs(self.expr), self.nodes + 1, self.depth + 1)
    }

    pub fn div(self, alloc: Global, k: u64) -> Result<Operand, LineFault>
        ensures { Gives expression_of result (kept (DivExpr (expression_of self) (pos k))) }
    {
        kept(
            alloc,
            Expr::Div(self.expr, i128::from(k)),
            self.nodes + 1,
            self.depth + 1,
        )
    }

    pub fn lut(self, alloc: Global, curve: Curve) -> Result<Operand, LineFault>
        ensures { Gives expression_of result (kept (LutExpr (expression_of self) curve)) }
    {
        kept(
            alloc,
            Expr::Lut(self.expr, curve),
            self.nodes + 1,
            self.depth + 1,
        )
    }

    pub fn add(self, alloc: Global, other: Operand) -> Result<Operand, LineFault>
        ensures { Gives expression_of result (kept (AddExpr (expression_of self) (expression_of other))) }
    {
        let (nodes, depth) = self.with(&other);
        kept(alloc, Expr::Add(self.expr, other.expr), nodes, depth)
    }

    pub fn sub(self, alloc: Global, other: Operand) -> Result<Operand, LineFault>
        ensures { Gives expression_of result (kept (SubExpr (expression_of self) (expression_of other))) }
    {
        let (nodes, depth) = self.with(&other);
        kept(alloc, Expr::Sub(self.expr, other.expr), nodes, depth)
    }

    pub fn mul(self, alloc: Global, other: Operand) -> Result<Operand, LineFault>
        ensures { Gives expression_of result (kept (MulExpr (expression_of self) (expression_of other))) }
    {
        let (nodes, depth) = self.with(&other);
        kept(alloc, Expr::Mul(self.expr, other.expr), nodes, depth)
    }

    pub fn min(self, alloc: Global, other: Operand) -> Result<Operand, LineFault>
        ensures { Gives expression_of result (kept (MinExpr (expression_of self) (expression_of other))) }
    {
        let (nodes, depth) = self.with(&other);
        kept(alloc, Expr::Min(self.expr, other.expr), nodes, depth)
    }

    pub fn max(self, alloc: Global, other: Operand) -> Result<Operand, LineFault>
        ensures { Gives expression_of result (kept (MaxExpr (expression_of self) (expression_of other))) }
    {
        let (nodes, depth) = self.with(&other);
        kept(alloc, Expr::Max(self.expr, other.expr), nodes, depth)
    }
}

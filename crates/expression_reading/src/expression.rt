//! Expressions by recursive descent: a sum is terms, a term is factors, and a factor is a leaf or has brackets.
//! Numbers and variables are tested here too, so that nothing is asked of the tokens.

ghost use Rattle.std.specs.Prelude.{◌≡◌, ◌≢◌, ◌≤◌, ◌-◌, get_or, IfOk, Err};
ghost use Rattle.fixed_expr.specs.Expression.{Expression, expression_of};
ghost use Rattle.expression_reading.specs.inside.ExpressionReading.{Gives, IsBelow, Inside, after_open, after_close, after_comma, bracketed, pair_of, number_at, negated, minimum, maximum, absolute, looked_up, factor_of, after_term, term_of, after_sum, sum_of, GivesExpression, GivesPair, reader_in, read_in};
ghost use Rattle.expression_reading.specs.KindTrees.{AreKindsOf};
ghost use Rattle.expression_reading.specs.declared.token_kind.TokenKind.TheVariants as kind;

use crate::operand::Operand;
use crate::points::{take_curve, take_divisor, take_literal};
use crate::token_kind::TokenKind;
use base::limits::{BRACKETS_LIMIT, NODES_LIMIT};
use fixed_expr::Expr;
use line_words::LineFault;
use std::alloc::Global;

/// How often reading may go on: once for each node and each open bracket.
const CALLS_LIMIT: u32 = NODES_LIMIT + BRACKETS_LIMIT;

/// What an expression may have.
#[derive(Clone, Copy)]
struct Budget {
    /// How many variables there are.
    variables: u32,
    /// How often reading may go on, by a sign, an operator or a bracket.
    calls: u32,
    /// How many brackets may be opened.
    brackets: u32,
}

impl Budget {
    /// One call less, where one is left.
    fn below(self) -> Result<Budget, LineFault>
        ensures { IsBelow self result }
    {
        if self.calls == 0 {
            return Err(LineFault::Malformed);
        }
        Ok(Budget {
            calls: self.calls - 1,
            ..self
        })
    }

    /// One bracket less.
    fn inside(self) -> Budget
        requires { 1 ≤ self.brackets }
        ensures { result ≡ record { variables = self.variables; calls = self.calls; brackets = self.brackets - 1 } }
    {
        Budget {
            brackets: self.brackets - 1,
            ..self
        }
    }
}

fn after_open(tokens: &[TokenKind]) -> Result<&[TokenKind], LineFault>
    ensures { Gives (λ x. x.now) result (after_open tokens.now) }
{
    match tokens {
        [TokenKind::Open, rest @ ..] => Ok(rest),
        _ => Err(LineFault::Malformed),
    }
}

fn after_close(tokens: &[TokenKind]) -> Result<&[TokenKind], LineFault>
    ensures { Gives (λ x. x.now) result (after_close tokens.now) }
{
    match tokens {
        [TokenKind::Close, rest @ ..] => Ok(rest),
        _ => Err(LineFault::Malformed),
    }
}

fn after_comma(tokens: &[TokenKind]) -> Result<&[TokenKind], LineFault>
    ensures { Gives (λ x. x.now) result (after_comma tokens.now) }
{
    match tokens {
        [TokenKind::Comma, rest @ ..] => Ok(rest),
        _ => Err(LineFault::Malformed),
    }
}

/// A sum at the front, and the tokens after it.
#[cycle(descent)]
#[tactic(auto, unfolding(crate::specs::inside::ExpressionReading::sum_of))]
fn take_sum(
    alloc: Global,
    budget: Budget,
    tokens: &[TokenKind],
) -> Result<(Operand, &[TokenKind]), LineFault>
    ensures { GivesExpression result (read_in budget sum_of tokens.now) }
{
    let (term, rest) = take_term(alloc, budget, tokens)?;
    after_sum(alloc, budget, term, rest)
}

/// What stands after a sum goes on with it.
#[cycle(descent)]
#[tactic(auto, using(crate::proofs::lemmas::ReadingSteps::read_none), unfolding(crate::specs::inside::ExpressionReading::after_sum))]
fn after_sum(
    alloc: Global,
    mut budget: Budget,
    mut sum: Operand,
    mut tokens: &[TokenKind],
) -> Result<(Operand, &[TokenKind]), LineFault>
    ensures { GivesExpression result (read_in budget after_sum (expression_of sum) tokens.now) }
{
    loop {
        match tokens {
            [TokenKind::Plus, rest @ ..] => {
                let (term, rest) = take_term(alloc, budget, rest)?;
                sum = sum.add(alloc, term)?;
                budget = budget.below()?;
                tokens = rest;
            }
            [TokenKind::Minus, rest @ ..] => {
                let (term, rest) = take_term(alloc, budget, rest)?;
                sum = sum.sub(alloc, term)?;
                budget = budget.below()?;
                tokens = rest;
            }
            _ => return Ok((sum, tokens)),
        }
    }
}

/// A term at the front.
#[cycle(descent)]
#[tactic(auto, unfolding(crate::specs::inside::ExpressionReading::term_of))]
fn take_term(
    alloc: Global,
    budget: Budget,
    tokens: &[TokenKind],
) -> Result<(Operand, &[TokenKind]), LineFault>
    ensures { GivesExpression result (read_in budget term_of tokens.now) }
{
    let (factor, rest) = take_factor(alloc, budget, tokens)?;
    after_term(alloc, budget, factor, rest)
}

/// What stands after a term goes on with it.
#[cycle(descent)]
#[tactic(auto, using(crate::proofs::lemmas::ReadingSteps::read_none), unfolding(crate::specs::inside::ExpressionReading::after_term))]
fn after_term(
    alloc: Global,
    mut budget: Budget,
    mut term: Operand,
    mut tokens: &[TokenKind],
) -> Result<(Operand, &[TokenKind]), LineFault>
    ensures { GivesExpression result (read_in budget after_term (expression_of term) tokens.now) }
{
    loop {
        match tokens {
            [TokenKind::Star, rest @ ..] => {
                let (factor, rest) = take_factor(alloc, budget, rest)?;
                term = term.mul(alloc, factor)?;
                budget = budget.below()?;
                tokens = rest;
            }
            [TokenKind::Slash, rest @ ..] => {
                let (k, rest) = take_divisor(rest)?;
                term = term.div(alloc, k)?;
                budget = budget.below()?;
                tokens = rest;
            }
            _ => return Ok((term, tokens)),
        }
    }
}

/// A factor at the front, with its signs.
#[cycle(descent)]
#[tactic(auto, using(crate::proofs::lemmas::ReadingSteps::read_none), unfolding(crate::specs::inside::ExpressionReading::factor_of))]
fn take_factor(
    alloc: Global,
    mut budget: Budget,
    mut tokens: &[TokenKind],
) -> Result<(Operand, &[TokenKind]), LineFault>
    ensures { GivesExpression result (read_in budget factor_of tokens.now) }
{
    let mut signs = 0;
    while let [TokenKind::Minus, rest @ ..] = tokens {
        budget = budget.below()?;
        signs += 1;
        tokens = rest;
    }
    let (factor, rest) = unsigned_factor(alloc, budget, tokens)?;
    Ok((negated(alloc, signs, factor)?, rest))
}

/// A factor negated so often.
#[tactic(auto, unfolding(crate::specs::inside::ExpressionReading::negated))]
fn negated(alloc: Global, mut signs: u32, mut factor: Operand) -> Result<Operand, LineFault>
    ensures { Gives expression_of result (negated signs (expression_of factor)) }
{
    while signs > 0 {
        factor = factor.neg(alloc)?;
        signs -= 1;
    }
    Ok(factor)
}

/// A factor with no sign at the front.
#[cycle(descent)]
#[tactic(auto, unfolding(crate::specs::inside::ExpressionReading::factor_of))]
fn unsigned_factor(
    alloc: Global,
    budget: Budget,
    tokens: &[TokenKind],
) -> Result<(Operand, &[TokenKind]), LineFault>
    requires { get_or tokens.now 0 (kind.Number 0) ≢ kind.Minus }
    ensures { GivesExpression result (read_in budget factor_of tokens.now) }
{
    match tokens {
        [TokenKind::Number(_), ..] => take_number(alloc, tokens),
        [TokenKind::Variable(i), rest @ ..] if *i < budget.variables => Ok((
            Operand::var(alloc, *i)?,
            rest,
        )),
        [TokenKind::Open, rest @ ..] => bracketed(alloc, budget, rest),
        [TokenKind::Min, rest @ ..] => minimum(alloc, budget, rest),
        [TokenKind::Max, rest @ ..] => maximum(alloc, budget, rest),
        [TokenKind::Abs, rest @ ..] => absolute(alloc, budget, rest),
        [TokenKind::Lut, rest @ ..] => looked_up(alloc, budget, rest),
        _ => Err(LineFault::Malformed),
    }
}

/// A number at the front.
#[tactic(auto, unfolding(crate::specs::inside::ExpressionReading::literal_at))]
fn take_number(alloc: Global, tokens: &[TokenKind]) -> Result<(Operand, &[TokenKind]), LineFault>
    ensures { GivesExpression result (number_at tokens.now) }
{
    let (k, rest) = take_literal(tokens)?;
    Ok((Operand::num(alloc, k)?, rest))
}

/// The lesser of two sums in brackets.
#[cycle(descent)]
fn minimum(
    alloc: Global,
    budget: Budget,
    tokens: &[TokenKind],
) -> Result<(Operand, &[TokenKind]), LineFault>
    ensures { GivesExpression result (minimum (reader_in budget) budget.brackets tokens.now) }
{
    let (a, b, rest) = take_pair(alloc, budget, tokens)?;
    Ok((a.min(alloc, b)?, rest))
}

/// The greater of two sums in brackets.
#[cycle(descent)]
fn maximum(
    alloc: Global,
    budget: Budget,
    tokens: &[TokenKind],
) -> Result<(Operand, &[TokenKind]), LineFault>
    ensures { GivesExpression result (maximum (reader_in budget) budget.brackets tokens.now) }
{
    let (a, b, rest) = take_pair(alloc, budget, tokens)?;
    Ok((a.max(alloc, b)?, rest))
}

/// The absolute value of a sum in brackets.
#[cycle(descent)]
fn absolute(
    alloc: Global,
    budget: Budget,
    tokens: &[TokenKind],
) -> Result<(Operand, &[TokenKind]), LineFault>
    ensures { GivesExpression result (absolute (reader_in budget) budget.brackets tokens.now) }
{
    let (sum, rest) = bracketed(alloc, budget, after_open(tokens)?)?;
    Ok((sum.abs(alloc)?, rest))
}

/// A sum in brackets looked up in the points after it.
#[cycle(descent)]
fn looked_up(
    alloc: Global,
    budget: Budget,
    tokens: &[TokenKind],
) -> Result<(Operand, &[TokenKind]), LineFault>
    ensures { GivesExpression result (looked_up (reader_in budget) budget.brackets tokens.now) }
{
    let (sum, rest) = inside(alloc, budget, after_open(tokens)?)?;
    let (curve, rest) = take_curve(alloc, rest)?;
    Ok((sum.lut(alloc, curve)?, rest))
}

/// A sum after a bracket that was opened, by a nested call.
#[cycle(descent)]
#[tactic(auto, using(crate::proofs::lemmas::ReadingSteps::read_none), unfolding(crate::specs::inside::ExpressionReading::step))]
fn inside(
    alloc: Global,
    budget: Budget,
    tokens: &[TokenKind],
) -> Result<(Operand, &[TokenKind]), LineFault>
    ensures { GivesExpression result (reader_in budget (Inside budget.brackets tokens.now)) }
{
    if budget.brackets == 0 {
        return Err(LineFault::Malformed);
    }
    take_sum(alloc, budget.below()?.inside(), tokens)
}

/// The same with the bracket that closes.
#[cycle(descent)]
#[tactic(auto, unfolding(crate::specs::inside::ExpressionReading::bracketed))]
fn bracketed(
    alloc: Global,
    budget: Budget,
    tokens: &[TokenKind],
) -> Result<(Operand, &[TokenKind]), LineFault>
    ensures { GivesExpression result (bracketed (reader_in budget) budget.brackets tokens.now) }
{
    let (sum, rest) = inside(alloc, budget, tokens)?;
    Ok((sum, after_close(rest)?))
}

/// Two sums in brackets.
#[cycle(descent)]
#[tactic(auto, unfolding(crate::specs::inside::ExpressionReading::pair_of, crate::specs::inside::ExpressionReading::bracketed))]
fn take_pair(
    alloc: Global,
    budget: Budget,
    tokens: &[TokenKind],
) -> Result<(Operand, Operand, &[TokenKind]), LineFault>
    ensures { GivesPair result (pair_of (reader_in budget) budget.brackets tokens.now) }
{
    let (a, rest) = inside(alloc, budget, after_open(tokens)?)?;
    let (b, rest) = inside(alloc, budget, after_comma(rest)?)?;
    Ok((a, b, after_close(rest)?))
}

/// Reads an expression over so many variables: all tokens as one sum.
pub fn parse_expression(
    alloc: Global,
    variables: u32,
    tokens: &[TokenKind],
) -> Result<Expr, LineFault>
    ensures found { IfOk result (λ e. AreKindsOf variables tokens.now (expression_of e)) }
    ensures refused { result ≡ Err LineFault.Malformed → (e : Expression) → AreKindsOf variables tokens.now e → ⊥ }
{
    let budget = Budget {
        variables,
        calls: CALLS_LIMIT,
        brackets: BRACKETS_LIMIT,
    };
    let (sum, rest) = take_sum(alloc, budget, tokens)?;
    if !rest.is_empty() {
        return Err(LineFault::Malformed);
    }
    Ok(sum.into_expr())
}

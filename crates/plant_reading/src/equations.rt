//! The expression of an equation, from the bytes after its `=`.

ghost use Rattle.std.specs.Prelude.{◌≡◌, ◌≢◌, ◌≤◌, length, IfOk, Err, AllPairs};
ghost use Rattle.std.specs.List.{All};
ghost use Rattle.fixed_expr.specs.Expression.{Expression, expression_of};
ghost use Rattle.line_words.specs.Names.{IsName};
ghost use Rattle.line_words.specs.LineTokens.{tokens_in};
ghost use Rattle.expression_reading.specs.TokenKinds.{AreNames, leaf_of, kind_of, kinds_among};
ghost use Rattle.plant_record.specs.Parts.{variable_names};
ghost use Rattle.plant_reading.specs.StatementsRead.{SpellsOver};
ghost use Rattle.base.specs.declared.limits.TheConstants.{VARIABLES_LIMIT};

use expression_reading::{
    TokenKind, parse_expression, parse_function, parse_literal, parse_symbol,
};
use fixed_expr::Expr;
use line_words::{LineFault, next_token};
use plant_record::Variables;
use std::alloc::{AllocError, Global};

/// The kind of a token that is no symbol and no function's name.
fn leaf_of(variables: &Variables, token: &[u8]) -> TokenKind
    requires few { length (variable_names variables.now) ≤ VARIABLES_LIMIT }
    requires names { AreNames (variable_names variables.now) }
    ensures { result ≡ leaf_of (variable_names variables.now) token.now }
{
    match variables.position_of(token) {
        Some(i) => TokenKind::Variable(i),
        None => match parse_literal(token) {
            Some(k) => TokenKind::Number(k),
            None => TokenKind::Other,
        },
    }
}

fn kind_of(variables: &Variables, token: &[u8]) -> TokenKind
    requires few { length (variable_names variables.now) ≤ VARIABLES_LIMIT }
    requires names { AreNames (variable_names variables.now) }
    ensures { result ≡ kind_of (variable_names variables.now) token.now }
{
    if let Some(symbol) = parse_symbol(token) {
        return symbol;
    }
    match parse_function(token) {
        Some(function) => function,
        None => leaf_of(variables, token),
    }
}

/// The kinds of a line's tokens.
fn parse_kinds(
    alloc: Global,
    variables: &Variables,
    bytes: &[u8],
) -> Result<Vec<TokenKind>, AllocError>
    requires few { length (variable_names variables.now) ≤ VARIABLES_LIMIT }
    requires names { AreNames (variable_names variables.now) }
    ensures { IfOk result (λ kinds. kinds.items ≡ kinds_among (variable_names variables.now) (tokens_in bytes.now)) }
{
    let mut kinds = Vec::new(alloc);
    let mut rest = bytes;
    while let Some((token, after)) = next_token(rest) {
        kinds.push(kind_of(variables, token))?;
        rest = after;
    }
    Ok(kinds)
}

/// How many variables there are.
fn count_of(variables: &Variables) -> u32
    requires few { length (variable_names variables.now) ≤ VARIABLES_LIMIT }
    ensures { result ≡ length (variable_names variables.now) }
{
    (variables.states.len() + variables.inputs.len() + variables.noises.len()) as u32
}

/// Reads an expression over the variables.
pub fn parse_equation(alloc: Global, variables: &Variables, bytes: &[u8]) -> Result<Expr, LineFault>
    requires few { length (variable_names variables.now) ≤ VARIABLES_LIMIT }
    requires differ { AllPairs (λ a b. a ≢ b) (variable_names variables.now) }
    requires names { All IsName (variable_names variables.now) }
    ensures found { IfOk result (λ e. SpellsOver variables.now bytes.now (expression_of e)) }
    ensures refused { result ≡ Err LineFault.Malformed → (e : Expression) → SpellsOver variables.now bytes.now e → ⊥ }
{
    let kinds = parse_kinds(alloc, variables, bytes)?;
    parse_expression(alloc, count_of(variables), &kinds)
}

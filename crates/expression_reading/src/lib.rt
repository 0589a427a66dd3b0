//! Expressions, read from their tokens.
//!
//! The layer above finds the kind of each token of a line, with the help of `parse_symbol`, `parse_function` and
//! `parse_literal`. `parse_expression` gives the one expression that tokens of these kinds spell, or the answer that they
//! spell none.
#![tactic(auto)]

mod expression;
pub mod laws;
mod operand;
mod points;
mod token_kind;

pub use expression::parse_expression;
pub use token_kind::{TokenKind, parse_function, parse_literal, parse_symbol};

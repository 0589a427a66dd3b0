//! Values of an expression in many lanes at once.
//!
//! The layer above gives an expression, with the values of its variables in 32 lanes: those of one variable in a column,
//! every other one the same in all lanes. `eval_along` finds the values in 64 bits, or answers that a number leaves them.
#![tactic(auto)]

mod lane_eval;

pub use lane_eval::{ValuesAlong, eval_along};

//! Deviations of expressions, which the literature calls growth bounds.
//!
//! The layer above gives an expression with an interval and a radius for each variable. `deviation` returns a bound on
//! how far the value moves if each variable moves by at most its radius. It returns None exactly if a span end or a
//! deviation of some node leaves 127 bits and a sign.
#![tactic(auto)]

mod bounds;
mod deviations;

pub use deviations::{deviation, span_and_deviation};

//! Spans of expressions, from intervals of their variables.
//!
//! The layer above gives an expression with an interval for each variable. `span` returns an interval that contains
//! every value, or None exactly if an end of some node's span leaves 127 bits and a sign.
#![tactic(auto)]

mod columns;
mod interval;
mod lane_spans;
pub mod laws;
mod spans;

pub use columns::{IntervalColumn, NO_INTERVALS};
pub use interval::Interval;
pub use lane_spans::span_lanes;
pub use spans::span;

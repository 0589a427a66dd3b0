//! Expressions over whole numbers, and their values.
//!
//! The layer above gives an expression with the values of its variables. `eval` returns the value, or None exactly if
//! the value of some node leaves the range of 127 bits and a sign. `lanes` has the operations on the numbers in 32 lanes at
//! once.
#![tactic(auto)]

pub mod arithmetic;
mod curve;
mod evaluate;
mod expr;
pub mod lanes;
mod mentions;
pub mod narrow;
mod operation;
mod shifts;
mod wide;

pub use base::NoMemory;
pub use curve::Curve;
pub use evaluate::eval;
pub use expr::Expr;
pub use lanes::LANES;
pub use operation::{Binary, combine};

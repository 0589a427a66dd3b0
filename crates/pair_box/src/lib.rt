//! The box of a pair in 8 bytes, or none.
//!
//! To contracts a `PairBox` is an optional box of cells. The layer above adds boxes end by end, and reads each as a
//! `CellBox`.
#![tactic(auto)]

mod pair_box;

pub use pair_box::{PairBox, SUMS_LIMIT};

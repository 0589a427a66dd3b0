//! The game of a plant, apart from how it lies in memory.
//!
//! Its definitions say which cells, inputs, marks and successors a plant's game has. `laws` says what holds of it: a
//! plant has at most one game, and this game refines the plant. `build_marks` gives the marks of the cells. A `BuildFault`
//! is why a layer above has no game of a plant.
#![tactic(auto)]

mod build_fault;
pub mod laws;
mod marks;

pub use build_fault::BuildFault;
pub use marks::{build_marks, mark_obstacles, mark_target};

//! The turns of a patrol: the targets by their numbers, and the rows of each turn.
//!
//! The layer above hands in an answer for each turn, and asks a cell's row by its turn. A table and a stay text have one turn.
#![tactic(auto)]

mod patrol_rows;

pub use patrol_rows::PatrolRows;

//! What a table does to its plant.
//!
//! The layer above gives a state with an enabled input and a noise in range, and gets the next state with its cell,
//! which is a successor. So the quantiser is a feedback refinement relation from the plant to its game. Two laws are about
//! the bytes of a table: a right table drives its plant into the target, and one of the keep solution keeps it for ever.
//! `drive` drives a plant.
#![tactic(auto)]

mod cells;
mod driven;
pub mod laws;
mod targets;

pub use cells::next_cell;
pub use driven::{Driven, drive};

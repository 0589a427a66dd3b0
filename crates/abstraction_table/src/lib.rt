//! The abstraction of a plant: its game in memory.
//!
//! The layer above gives a plant with its deviations, and gets the plant's game, or the exact number of its edges if
//! these are too many. `build_forward` gives a `Forward`: a box of cells for each pair, whose cells are the pair's successors.
//! `build` gives a `Graph`, which also keeps, for each cell, the pairs that lead to it; `add_sources` makes a `Graph`
//! from what `build_forward` gave.
#![tactic(auto)]

mod abstraction;
mod boxed_game;
mod builders;
mod forward;

pub use abstraction::Abstraction;
pub use builders::{add_sources, build, build_forward};
pub use forward::ForwardAbstraction;
pub use plant_game::BuildFault;

//! The pairs that lead to each cell, found from the boxes of all pairs.
//!
//! The layer above gives the boxes. `count_fans` counts the cells of each, `build_shapes` lists the segments of their
//! shapes, by which all cells of a box are put to a test, and `build_sources` the pairs that lead to each cell, in bands of
//! cells that are filled side by side. `KnownShapes` counts and lists the shapes of boxes that come some at a time.
#![tactic(auto)]

mod band;
mod band_filling;
mod cell_ranges;
mod cuts;
mod fans;
mod intake;
mod known_shapes;
mod shapes;
mod sources;

pub use fans::{Fans, count_fans};
pub use known_shapes::KnownShapes;
pub use shapes::{Shapes, build_shapes};
pub use sources::{Sources, build_sources};

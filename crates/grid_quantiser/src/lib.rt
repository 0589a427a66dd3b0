//! Uniform grids over boxes of whole numbers.
//!
//! The layer above gives the axes and gets the cells that tile them: the cell of a state, the corner points and the
//! centre of a cell, and the cells that meet a box of states, touch it or lie in it. Each contract is about the set of
//! points of a cell, though no call lists a point. The crate takes no memory.
#![tactic(auto)]

mod axis;
mod boxes;
mod cells;
mod extents;
mod grid;
pub mod laws;
mod overlaps;
mod quantiser;
mod segments;

pub use axis::{Axis, NO_AXIS};
pub use boxes::CellBox;
pub use extents::Extent;
pub use grid::{Grid, Point, TooManyCells};
pub use quantiser::AxisQuantiser;
pub use segments::Segments;

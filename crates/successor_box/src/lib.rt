//! Successor boxes.
//!
//! The layer above gives a plant with a cell and an input, and gets where the plant can be one sample later: the step
//! of the cell's centre, enlarged by how far the equations move within a cell. It gets this as a box of cells, or as
//! the extents of many boxes along one axis at once.
#![tactic(auto)]

mod additive;
mod area;
mod cell_line;
mod cell_spans;
mod central_value;
mod extents;
pub mod laws;
mod line_extents;
mod noise_centres;
mod one_pair;
mod sampled;
mod slope_fault;
mod slopes;

pub use additive::AdditiveLine;
pub use cell_line::CellLine;
pub use central_value::INDICES_LIMIT;
pub use one_pair::successors;
pub use sampled::Sampled;
pub use slope_fault::SlopeFault;
pub use slopes::{Slopes, find_slopes};

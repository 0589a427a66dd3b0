//! The boxes of a plant's pairs, all at once or those of some cells at a time.
//!
//! The layer above gives a plant with its deviations, and gets, for each pair of a cell and an input vector, the box
//! of its successors, or none where the input vector isn't enabled. What pairs share is found once for them.
#![tactic(auto)]

mod box_finder;
mod cell_lines;
mod digits;
mod extent_lines;
mod extent_table;
mod pair_boxes;
mod per_pair;
mod state_of;
mod terms;

pub use box_finder::BoxFinder;
pub use pair_boxes::build_boxes;

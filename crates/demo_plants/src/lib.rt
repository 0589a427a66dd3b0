//! The demo plants.
//!
//! The layer above gives a number from 1 to 500, gets a plant, solves it, and gets the line with the sizes of the
//! solution. The clauses fix both: the plant as a description, the line by the plant's solution. The laws say that
//! nothing refuses a demo plant, and that it has one line.
#![tactic(auto)]

mod generator;
pub mod laws;
mod plant;
mod summary;

pub use plant::demo_plant;
pub use summary::demo_line;

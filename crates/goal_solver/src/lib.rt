//! The game of a plant, solved for the plant's goal by workers at a board.
//!
//! The layer above makes a `GoalScratch` for a forward abstraction, adds the source lists, and gets the solution of the
//! game with them, the board and the board's root.
#![tactic(auto)]

mod goal_scratch;

pub use goal_scratch::GoalScratch;

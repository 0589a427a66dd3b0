//! The reach game of any graph, solved by 1 to 64 workers on a shared board.
//!
//! `solve` gives the reach solution with its tally, the board of the solved game, and the board's root, whose accounts
//! have exactly the cuts and the offers that the solution requires. So the contract fixes these steps on the board, for
//! every number of workers and every interleaving. `solve_in` does the same in a `Scratch` made beforehand, and can't
//! fail.
#![tactic(auto)]

mod reach_rule;
mod reach_solver;
mod scratch;

pub use game_core::{NoMemory, Tally};
pub use reach_solver::{solve, solve_in};
pub use scratch::{ReachStart, Scratch};

/// A solved game: its solution, what was counted, the board on which it was solved, and the board's root.
///
/// `tally` has as cuts the edges into cells with a row, as offers the enabled pairs all of whose successors have one, and the rounds up
/// to the greatest rank.
pub type Solved = board_rounds::SolvedGame;

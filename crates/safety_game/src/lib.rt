//! The keep game of any graph, solved by 1 to 64 workers on a shared board.
//!
//! `keep` gives the keep solution with its tally, the board of the solved game, and the board's root, whose accounts
//! have exactly the cuts that the solution requires. So the contract fixes these steps on the board, for every number
//! of workers and every interleaving. `keep_in` does the same in a `Scratch` made beforehand, and can't fail.
#![tactic(auto)]

mod keep_rule;
mod keep_solver;
mod scratch;

pub use game_core::{NoMemory, Tally};
pub use keep_solver::{keep, keep_in};
pub use scratch::{KeepStart, Scratch};

/// A solved keep game: its solution, what was counted, the board on which it was solved, and the board's root.
///
/// `tally` has as cuts the edges into cells that aren't kept and the pairs that are lost by them, no offers, and the rounds in which a
/// cell falls.
pub type Kept = board_rounds::SolvedGame;

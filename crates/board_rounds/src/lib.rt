//! Rounds of workers at a board, by the rule of a game.
//!
//! The `Rule` gives the first list of cells. In each round, workers with new hands take the cells of the list, each
//! cell once; they cut the pairs that lead to it and do what the rule adds. Then all hands are taken in, and the cells
//! that were logged are the next list. `run_all` ends with an empty list, and then the rule's invariant holds for the
//! empty list. The crate knows no rule of a game.
#![tactic(auto)]

mod first;
mod logged;
mod numbers;
mod round_job;
mod rounds;
mod rule;
mod scratch;
mod solving;
mod start;
mod worker;
mod workers;

pub use rule::Rule;
pub use scratch::Scratch;
pub use solving::{SolvedGame, solve_by_rule};
pub use start::Start;
pub use worker::Worker;

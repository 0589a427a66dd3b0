//! Finite games of a controller against disturbances, and their one-thread solvers.
//!
//! The layer above gives a `Graph`, a game whose laws are its contract, and gets an `Answer`. `solve_plain` returns the
//! reach solution: for each cell that can be won the least depth of a winning strategy, and the input to apply.
//! `keep_plain` returns the keep solution: the cells from which the controller can go on for ever, with an input.
//! `laws` says what solutions promise, that a game has at most one of each, and that rows whose cells are right one by
//! one are a solution. A `CellJudge` finds the first wrong cell of a game.
#![tactic(auto)]

mod answer;
mod falling;
mod game;
mod judge;
pub mod laws;
mod plain;
mod remark;
mod search;
mod tally;

pub use answer::Answer;
pub use base::NoMemory;
pub use game::{CellTest, Forward, Graph, Mark, Row};
pub use judge::CellJudge;
pub use plain::{keep_plain, solve_plain};
pub use remark::Remark;
pub use tally::Tally;

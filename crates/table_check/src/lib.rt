//! Checkers of tables against games.
//!
//! The layer above gives a graph and a table over its cells and inputs. It learns that the rows are the solution of the
//! game, or which cell is the first whose row isn't right. `check_reach` goes by a `RowJudge`, which looks at each cell's
//! row and at those of its successors: it solves nothing and takes no memory. `check_keep` compares the rows with those of
//! `keep_plain`.
#![tactic(auto)]

mod judge;
mod keep;
mod reach;
mod verdict;

pub use game_core::NoMemory;
pub use judge::RowJudge;
pub use keep::check_keep;
pub use reach::check_reach;
pub use verdict::Verdict;

//! Lists of numbers in one block of memory, which is never cleared.
//!
//! The layer above fills a `RowFill` in any order of lists, and then any number of threads read the `Rows`, which lend
//! each list as a slice. To contracts both are the lists. `put` appends to its list and `put_each` to consecutive lists;
//! neither changes another, and `row` is the list as it was filled. No slot is read before it was written. Tests show that
//! the block is freed, also if a filling is dropped half way.
#![tactic(auto)]

mod fill;
mod rows;

pub use base::NoMemory;
pub use fill::RowFill;
pub use rows::Rows;

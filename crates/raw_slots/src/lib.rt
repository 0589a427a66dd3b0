//! Blocks of raw memory, which are never cleared.
//!
//! To contracts a `Block` is its slots, each empty or holding a value: no slot is read before it was written. A `RawList` is a
//! list of which each chunk is made by one thread, in its own memory first. A block is freed at most once; tests show that it is
//! freed. The pointers are in `slots`.
#![tactic(auto)]

mod block;
mod list;
mod making;
mod part;
mod slots;
mod stretch;

pub use block::Block;
pub use list::RawList;

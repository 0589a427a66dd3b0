//! Rounds of workers: the items of a list, divided among hands that work side by side.
//!
//! A sweep does each item with exactly one hand, once, for every interleaving. A worker that finds an item claims it by
//! one atomic step on the item's word. Deques carry the numbers from hand to hand, and no clause depends on what they
//! give. No clause is about progress, fairness or which hand does what. The crate knows nothing of games.
#![tactic(auto)]

mod caller;
mod gate;
mod job;
pub mod laws;
mod member;
mod pool;
mod rule;
mod serial;
mod sweep_context;

pub use gate::{Gate, Open};
pub use job::Toil;
pub use member::{Local, Member};
pub use pool::{hands_for, sweep};
pub use serial::one_by_one;

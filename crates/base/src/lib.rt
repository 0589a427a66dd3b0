//! What all crates stand on: the limits of the product, the want of memory, and quotients by a fixed divisor.
//!
//! The layers above get `limits`, which clauses and code cite, `NoMemory`, which each passes on under its own name, and
//! `Divisor`, which divides many numbers by one: by a multiplication each, because a division takes several times as
//! long. What fits in 64 bits and how often a number stands in a list are defined here too. Lemmas that know nothing of
//! the product stand in `proofs`.
#![tactic(auto)]

mod divisor;
pub mod limits;
mod no_memory;

pub use divisor::Divisor;
pub use no_memory::NoMemory;

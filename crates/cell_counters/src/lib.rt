//! Counters, minima and a log that threads share, by single atomic steps.
//!
//! For any number of threads and every interleaving, the accounts of all hands together are lawful for each counter,
//! each minimum and the log. `laws` turns that into what a caller needs. Of as many cuts of a counter as it began with
//! exactly one returns 0. Of the offers on a free word exactly one was first. The logs of a round fill the slots that
//! follow those of the rounds before. No clause is about progress, fairness or which hand got what. The crate knows
//! nothing of games.
#![tactic(auto)]

mod account;
mod board;
pub mod laws;
mod numbers;
mod rule;

pub use account::{Account, Cut, Log, NONE, Offer};
pub use base::NoMemory;
pub use board::{Board, Hand, Root};

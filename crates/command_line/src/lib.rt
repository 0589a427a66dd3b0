//! The arguments of the command line, and how a run ends.
//!
//! The layer above gives the arguments and gets the command that they are of, or the answer that they are of none. A command
//! of `sim` has the numbers of a state, `StateNumbers`; to contracts they are their list. A run's `Outcome` is its answer, a
//! refusal of its text or a failure; it has a status and a line.
#![tactic(auto)]

mod command;
mod limits;
mod outcome;
mod state_numbers;

pub use command::{Command, parse_command, parse_workers};
pub use outcome::{Failure, Outcome, Refusal};
pub use state_numbers::StateNumbers;

//! What the commands write: tables, stay and patrol texts, traces and lines, and how each is written.
//!
//! The layer above puts what a command worked out into a `Text`, and `write` gives its bytes to a sink: all of them, or
//! the first ones if the sink fails.
#![tactic(auto)]

mod text;

pub use text::{Simulation, Text};

//! What the text of each command demands: to be answered, or to be refused for one reason.
//!
//! Its definitions say which plants and tables a command takes, why it refuses the others, and which trace a table has
//! from a start. `laws` says that each text demands one thing at most, and never nothing.
#![tactic(auto)]

pub mod laws;

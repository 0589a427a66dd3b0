//! What the words of a line say after its keyword: a version, a variable, a box or a goal.
//!
//! The layer above gives the bytes after the keyword. It gets what their words spell, or the answer that they spell
//! nothing. Equations, which have tokens, are read elsewhere.
#![tactic(auto)]

mod declarations;
mod state_boxes;

pub use declarations::{parse_goal, parse_input, parse_noise, parse_state, parse_version};
pub use state_boxes::parse_box;

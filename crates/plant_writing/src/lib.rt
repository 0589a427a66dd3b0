//! Plants written as texts.
//!
//! The layer above gives a plant and gets its canonical text, or the line of a version, a variable, a box, an equation
//! or a goal.
#![tactic(auto)]

mod expression_writer;
mod plant_writer;

pub use plant_writer::{
    goal_line, push_box, push_equation, push_input, push_noise, push_state, version_line,
    write_plant,
};

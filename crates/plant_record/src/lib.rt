//! A plant: its variables, equations, aims and limits, and its step from one sample to the next.
//!
//! The layers that read and write texts build a `Plant` from its parts or take it apart; all others call its getters.
//! To contracts a `Plant` is its description.
#![tactic(auto)]

mod aims;
mod cell_marks;
pub mod laws;
mod limit_kind;
mod plant;
mod plant_parts;
mod transition;
mod variable_names;
mod variables;
mod version;

pub use aims::{GoalKind, StateBox};
pub use base::NoMemory;
pub use limit_kind::LimitKind;
pub use plant::Plant;
pub use plant_parts::{PlantParts, numbers_along};
pub use transition::{step, step_along};
pub use variable_names::Names;
pub use variables::{
    InputVariable, Name, NoiseVariable, StateVariable, Values, Variable, Variables,
};
pub use version::PlantVersion;

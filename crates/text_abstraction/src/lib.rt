//! The forward abstraction of the plant that a text spells, or why there is none.
//!
//! The layer above gives bytes or a plant and gets the plant's game, without source lists. A `Stop` says why a command
//! has no answer, by the fault of the layer below.
#![tactic(auto)]

mod abstraction;
mod stop;

pub use abstraction::{forward_of, forward_of_text};
pub use stop::Stop;

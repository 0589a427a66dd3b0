//! What the texts of reach and stay and of a patrol promise, where they are those of a game's solution.
//!
//! The stay text of the solution settles its plant, and the patrol text patrols the plant's targets: by induction on the
//! disturbances.
#![tactic(auto)]

pub mod laws;

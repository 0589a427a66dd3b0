//! What each command makes of the bytes that it works on.

pub mod check;
pub mod demo;
pub mod patrol;
pub mod sim;
pub mod stay;
pub mod synth;
pub mod upgrade;

//! Tests of the crates below successor boxes and of these, from the pieces of texts on.
//!
//! A module for each crate. What is expected is worked out by hand, as the comments show. What whole texts show is in
//! tests/cases.
#![tactic(auto)]

#[cfg(test)]
mod boxes;
#[cfg(test)]
mod deviations;
#[cfg(test)]
mod expressions;
#[cfg(test)]
mod grids;
#[cfg(test)]
mod pieces;
#[cfg(test)]
mod plants;
#[cfg(test)]
mod spans;

//! Tests of live tables, through public calls.

mod answers;
mod refusals;
mod scripts;
pub mod tables;
mod threads;

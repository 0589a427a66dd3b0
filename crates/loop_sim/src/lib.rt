//! A plant in closed loop with a table.
//!
//! The layer above gives a table and a state, and gets the plant's trace under the table's inputs and generated noises:
//! line by line from a `Sim`, or as text, piece by piece, from a `TraceWriter`. To contracts both are what is still to
//! come.
#![tactic(auto)]

mod closed_loop;
pub mod laws;
mod noise_generator;
mod sim;
mod sim_line;
mod trace_line;
mod trace_writer;

pub use sim::Sim;
pub use sim_line::SimLine;
pub use trace_writer::TraceWriter;

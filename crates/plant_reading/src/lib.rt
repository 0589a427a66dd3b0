//! Lines of plant texts, read one by one.
//!
//! The layer above gives a line, with the variables known before it. It gets the one thing that the line states, or the
//! answer that it states nothing.
#![tactic(auto)]

mod equations;
mod statements;

pub use line_words::{LineFault, is_skipped, next_full_line, next_line, parse_number};
pub use statements::{Statement, parse_statement};

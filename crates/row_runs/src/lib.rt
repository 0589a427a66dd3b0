//! Runs of rows, and their lines.
//!
//! The layer above gives one optional row for each cell, and gets the longest runs of cells with one row, one by one or
//! as the text of their lines. Or it gives runs, and their rows go to their cells. Rows have one list of runs, and the
//! runs determine the rows. A `LineText` is a line that is written from its end. A `FramedText` puts a header before
//! such lines and the last line after them.
#![tactic(auto)]

mod filling;
mod framed_text;
pub mod laws;
mod line_text;
mod row_format;
mod run;
mod run_lines;
mod runs;

pub use filling::fill_run;
pub use framed_text::FramedText;
pub use line_text::LineText;
pub use row_format::RowFormat;
pub use run::{Run, TableVersion};
pub use run_lines::RunLines;
pub use runs::{Runs, count_runs};

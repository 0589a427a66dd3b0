//! Tables of controllers as texts.
//!
//! The layer above gives a plant and one optional row for each of its cells, and gets the table's text piece by piece.
//! Or it gives bytes and gets the one table that they are, in either version, or the first reason why they are refused.
//! To contracts a `Table` is its version, its plant and its rows.
#![tactic(auto)]

mod goal_format;
pub mod laws;
mod rows_text;
mod rows_writer;
mod table;
mod table_copy;
mod table_fault;
mod table_reader;
mod table_writer;
mod text_fault;
mod text_kind;
mod text_reader;
mod turn_lines;

pub use base::NoMemory;
pub use goal_format::{format_of, has_arrived};
pub use row_runs::TableVersion;
pub use rows_text::RowsText;
pub use rows_writer::RowsWriter;
pub use table::Table;
pub use table_fault::TableFault;
pub use table_reader::read_table;
pub use table_writer::TableWriter;
pub use text_fault::TextFault;
pub use text_kind::{PATROL_LIMIT, TextKind, take_kind};
pub use text_pieces::Pieces;
pub use text_reader::{read_after, read_kind};

//! Lines of rows that are read.
//!
//! The layer above gives the bytes after a header, and rules: in which version and format rows are written turn by turn, and
//! which rows a cell may have. It gets the one list of rows that the lines give for each turn, or the first line that is
//! refused. A table has one turn. Which line may come next is a grammar of `text_pieces`. Numbers, prefixes and lines of any
//! bytes are read here too.
#![tactic(auto)]

mod prefix;
mod row_fault;
mod row_numbers;
mod row_reader;
mod row_rules;
mod run_reader;
mod turn_reader;

pub use prefix::{after_prefix, line_count};
pub use row_fault::RowFault;
pub use row_numbers::take_number;
pub use row_rules::{RowRules, TurnHead, TurnRules};
pub use turn_reader::read_turns;

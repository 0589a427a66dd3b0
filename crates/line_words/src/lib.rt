//! The lines of a text, and what the words of a line are: names, numbers, and the tokens in them.
//!
//! The layers above give a line or what is left of one, and get its next word with the bytes after it. A word that has to
//! be a name, a number or a text of theirs is asked for as such, and refused by a `LineFault` if it isn't. What a plant may
//! name, and which numbers it may hold, is defined here.
#![tactic(auto)]

mod blanks;
mod expected;
mod line_fault;
mod lines;
mod names;
mod numbers;
mod tokens;

pub use blanks::{is_skipped, next_word};
pub use expected::{expect_end, expect_number, expect_word, only_word, take_name, take_number};
pub use line_fault::LineFault;
pub use lines::{next_full_line, next_line};
pub use numbers::parse_number;
pub use tokens::next_token;

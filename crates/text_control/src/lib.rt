//! What a text says to do at a state.
//!
//! The layer above gives the bytes of a table, of a stay text or of a patrol text, and gets what they say as a `PackedText`
//! in little memory, or why they are none of the three. At each sample it gives a state's numbers. It gets the values of the
//! input vector that the text applies there, or learns that there are none; for one state or for many. Of a patrol it is
//! told when the next turn begins, and for a next state whether the plant's equations may lead there. By its contracts these
//! are the answers of each text that says the same.
#![tactic(auto)]

mod at_state;
mod at_states;
mod control_fault;
mod follow;
mod following;
pub mod laws;
mod packed_rows;
mod packed_text;
mod reading;
mod reply;
mod row_words;
mod rows;
pub mod statuses;
mod stretches;
mod turns;
mod visits;
mod word_positions;

pub use at_state::control;
pub use at_states::control_each;
pub use control_fault::ControlFault;
pub use controller_table::TextKind;
pub use follow::Follow;
pub use following::follows;
pub use packed_text::PackedText;
pub use reading::read_text;
pub use reply::Reply;
pub use rows::{rank_at, row_at};
pub use turns::{begin_turn, visit};
pub use visits::Visit;

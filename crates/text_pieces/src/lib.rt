//! Texts that come in pieces, and texts that are read piece by piece.
//!
//! To write, the layer above says how some of the next bytes of its text are copied. It gets `next_piece`, which fills a
//! buffer with them. To contracts a text is the bytes that are still to come.
//!
//! To read, a grammar is a step that leads by a piece of a text from one state to the next, and what closes a text. For
//! each grammar whose steps the text determines, `proofs/Laws.antt` says that a text has one reading, or one first piece
//! that is refused, never both and never neither.
#![tactic(auto)]

mod copying;
mod pieces;

pub use copying::copy_prefix;
pub use pieces::Pieces;

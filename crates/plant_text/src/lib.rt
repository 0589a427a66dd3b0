//! Plants as texts.
//!
//! The layer above gives the bytes of a plant text and gets the one plant that they spell, or the first reason why the
//! text is refused. Or it gives bytes that begin with a plant's canonical text and gets that plant. A canonical text of
//! at most 65,536 bytes reads back. The crate passes on plants and their steps from `plant_record`, and `write_plant`
//! from `plant_writing`.
#![tactic(auto)]

mod draft;
mod front_reader;
pub mod laws;
mod plant_fault;
mod plant_reader;
mod statement_writer;
mod version_rules;

pub use front_reader::{Front, read_front};
pub use plant_fault::PlantFault;
pub use plant_reader::read_plant;
pub use plant_record::{GoalKind, LimitKind, NoMemory, Plant, step};
pub use plant_writing::write_plant;

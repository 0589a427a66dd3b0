//! The texts of reach and stay and of a patrol.
//!
//! The layer above hands in a plant and the rows of either, and gets their text piece by piece: the plant's text, and the
//! longest runs of cells with one row, for a patrol turn by turn. Or it gives bytes and gets the one plant and the rows that
//! they say, or the first reason why they are refused. What a text promises of its plant is said here too, of trajectories
//! of every length. No solver and no game occurs here.
#![tactic(auto)]

pub mod laws;
mod patrol_reader;
mod patrol_table;
mod patrol_writer;
mod stay_reader;
mod stay_table;
mod stay_writer;

pub use base::NoMemory;
pub use controller_table::{PATROL_LIMIT, TableFault, TextFault as PatrolFault};
pub use patrol_reader::read_patrol;
pub use patrol_table::PatrolTable;
pub use patrol_writer::PatrolWriter;
pub use stay_reader::read_stay;
pub use stay_table::StayTable;
pub use stay_writer::StayWriter;
pub use text_pieces::Pieces;

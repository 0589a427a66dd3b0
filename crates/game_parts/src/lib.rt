//! The first wrong cell of a plant's game, of which only parts are in memory.
//!
//! The layer above gives a plant with its deviations, and a `CellJudge`. `find_first_wrong` returns the first cell that this
//! finds wrong, or the exact number of the plant's edges if these are too many. Parts of the cells are judged side by
//! side, and only the boxes of some cells of each part are kept at a time.
#![tactic(auto)]

mod game_part;
mod part_search;

pub use part_search::find_first_wrong;
pub use plant_game::BuildFault;

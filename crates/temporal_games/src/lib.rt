//! Games of more than one aim.
//!
//! `stay` brings a plant into its targets and keeps it there, `patrol` visits them in turn for ever, by the solvers of the
//! reach and the keep game under other marks.
#![tactic(auto)]

mod arrivals;
mod best_row;
mod patrol_solver;
mod reach_and_stay;
mod stay_marks;
mod turns;

pub use base::NoMemory;
pub use patrol_solver::patrol;
pub use reach_and_stay::stay;
pub use turn_rows::PatrolRows;

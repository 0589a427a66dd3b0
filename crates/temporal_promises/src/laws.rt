//! What the texts of solutions promise.

ghost use Rattle.temporal_promises.specs.Laws.{StaySolutionsSettle, PatrolSolutionsPatrol};

/// The text of the solution of reach and stay of a plant's game is a stay text, and settles the plant.
pub fn stay_solutions_settle()
    ensures { StaySolutionsSettle }
{}

/// The text of the solution of patrol of a plant's game is a patrol text if the plant has few enough turns, and patrols the
/// plant's targets.
pub fn patrol_solutions_patrol()
    ensures { PatrolSolutionsPatrol }
{}

//! What holds of every plant, its game and its table.

ghost use Rattle.plant_refine.specs.Laws.{RightTablesDrivePlants, KeptTablesKeepPlants, SolutionTablesControlPlants};

/// A table all of whose cells are right brings its plant into the target, within as many samples as
/// the ranks say and past no obstacle. After arrival nothing is said.
pub fn right_tables_drive_plants()
    ensures { RightTablesDrivePlants }
{}

/// A table of the keep solution keeps its plant for ever.
pub fn kept_tables_keep_plants()
    ensures { KeptTablesKeepPlants }
{}

/// A table of the solution of its plant does what the plant's goal asks for: it drives the plant into a target, or
/// keeps it for ever.
pub fn solution_tables_control_plants()
    ensures { SolutionTablesControlPlants }
{}

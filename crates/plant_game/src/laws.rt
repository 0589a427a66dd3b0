//! What holds of the game of every plant.

ghost use Rattle.plant_game.specs.Laws.{OneGamePerPlant, OneSolutionPerPlant, OneEdgeCount, GamesCountTheirEdges, GamesRefineTheirPlants};

/// A plant has one game at most.
pub fn one_game_per_plant()
    ensures { OneGamePerPlant }
{}

/// A plant has one solution at most.
pub fn one_solution_per_plant()
    ensures { OneSolutionPerPlant }
{}

/// A plant has one number of edges at most.
pub fn one_edge_count()
    ensures { OneEdgeCount }
{}

/// The lists of successors of a plant's game have all its edges.
pub fn games_count_their_edges()
    ensures { GamesCountTheirEdges }
{}

/// The game of a plant has a successor for each step from each enabled pair.
pub fn games_refine_their_plants()
    ensures { GamesRefineTheirPlants }
{}

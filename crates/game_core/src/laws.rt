//! Laws about the definitions, for callers and tests.
ghost use Rattle.std.specs.Prelude.{List, Option};
ghost use Rattle.game_core.specs.declared.game.Row.{Row};
ghost use Rattle.game_core.specs.Fallen.{AreStable, KeptOrFallsInTime, DeepKeepTreesKeep};
ghost use Rattle.game_core.specs.Game.{Game, IsGame};
ghost use Rattle.game_core.specs.Counts.{CountsAgree, EdgesFromBothEnds};
ghost use Rattle.game_core.specs.Keep.{IsKeepSolution};
ghost use Rattle.game_core.specs.Right.{AreRight};
ghost use Rattle.game_core.specs.Solution.{IsReachSolution, LeadsToGoals, RanksAreBelowTheCells, RowsStandAtCells, SolutionsAreUnique};

/// Who follows the rows of a solution comes to lower ranks alone, and at rank 0 to a goal.
pub fn rows_lead_to_goals()
    ensures { (g : Game) (rows : List (Option Row)) → IsGame g → IsReachSolution g rows → LeadsToGoals g rows }
{}

/// A game has one reach solution.
pub fn one_solution()
    ensures { SolutionsAreUnique IsReachSolution }
{}

/// A game has one keep solution.
pub fn one_keep_solution()
    ensures { SolutionsAreUnique IsKeepSolution }
{}

/// Settled rows are the keep solution.
pub fn stable_rows_are_the_keep_solution()
    ensures { (g : Game) (rows : List (Option Row)) → IsGame g → AreStable g rows → IsKeepSolution g rows }
{}

/// A cell that isn't kept has no keep tree of some depth that is at most the number of cells.
pub fn kept_or_falls_in_time()
    ensures { KeptOrFallsInTime }
{}

/// A keep tree whose depth is not below the number of cells makes a cell kept: no deeper one has to be looked for.
pub fn deep_keep_trees_keep()
    ensures { DeepKeepTreesKeep }
{}

/// A row stands at a cell.
pub fn rows_stand_at_cells()
    ensures { RowsStandAtCells }
{}

/// The rank of a row in a solution is less than the number of cells.
pub fn ranks_are_below_the_cells()
    ensures { RanksAreBelowTheCells }
{}

/// Rows all of whose cells are right are the solution.
pub fn right_rows_are_the_solution()
    ensures { (g : Game) (rows : List (Option Row)) → IsGame g → AreRight g rows → IsReachSolution g rows }
{}

/// Each cell of a solution is right.
pub fn solutions_are_right()
    ensures { (g : Game) (rows : List (Option Row)) → IsGame g → IsReachSolution g rows → AreRight g rows }
{}

/// What sums over lists of numbers show, and how often numbers stand there.
pub fn counts_agree()
    ensures { CountsAgree }
{}

/// A pair stands among the sources of a cell as often as the cell among the pair's successors.
pub fn edges_from_both_ends()
    ensures { EdgesFromBothEnds }
{}

ghost use Rattle.std.specs.Prelude.{◌≡◌};
ghost use Rattle.grid_quantiser.specs.Axes.{cells_of};
ghost use Rattle.plant_record.specs.declared.aims.GoalKind.TheVariants.{Reach};
ghost use Rattle.plant_record.specs.Description.{axes_of, vectors_of};
ghost use Rattle.table_check.specs.Verdicts.{IsVerdictFor};

use crate::judge::RowJudge;
use crate::verdict::Verdict;
use controller_table::Table;
use game_core::{CellJudge, Forward};

/// The verdict on the rows of a reach table, by the rows of each cell's successors alone.
pub fn check_reach<G: Forward>(g: &G, t: &Table) -> Verdict
    requires goal { t.now.plant.goal ≡ Reach }
    requires cells { (G.game g.now).cells ≡ cells_of (axes_of t.now.plant) }
    requires inputs { (G.game g.now).inputs ≡ vectors_of t.now.plant.inputs }
    ensures { IsVerdictFor Reach (G.game g.now) t.now.rows result }
{
    let judge = RowJudge::new(t);
    Verdict::by_first_wrong(judge.first_wrong(g, 0, g.cells()))
}

ghost use Rattle.std.specs.Prelude.{◌≡◌, length, IfOk};
ghost use Rattle.game_core.specs.Solution.{row_of};
ghost use Rattle.grid_quantiser.specs.Axes.{cells_of};
ghost use Rattle.plant_record.specs.declared.aims.GoalKind.TheVariants.{Keep};
ghost use Rattle.plant_record.specs.Description.{axes_of, vectors_of};
ghost use Rattle.table_check.specs.Verdicts.{IsVerdict, IsVerdictFor};

use crate::verdict::Verdict;
use controller_table::Table;
use game_core::{Answer, Graph, NoMemory, keep_plain};
use std::alloc::Global;

/// The verdict on the rows of a keep table, whose game is solved.
pub fn check_keep<G: Graph>(alloc: Global, g: &G, t: &Table) -> Result<Verdict, NoMemory>
    requires goal { t.now.plant.goal ≡ Keep }
    requires cells { (G.game g.now).cells ≡ cells_of (axes_of t.now.plant) }
    requires inputs { (G.game g.now).inputs ≡ vectors_of t.now.plant.inputs }
    ensures { IfOk result (IsVerdictFor Keep (G.game g.now) t.now.rows) }
{
    let kept = keep_plain(alloc, g)?;
    Ok(compare(t.answer(), &kept))
}

/// The verdict on rows beside those that they should be.
fn compare(rows: &Answer, kept: &Answer) -> Verdict
    requires { length rows.now ≡ length kept.now }
    ensures { IsVerdict (rows.now ≡ kept.now) (λ c. row_of rows.now c ≡ row_of kept.now c) (length kept.now) result }
{
    for c in 0..kept.cells() {
        if rows.row(c) != kept.row(c) {
            return Verdict::Invalid { cell: c };
        }
    }
    Verdict::Valid
}

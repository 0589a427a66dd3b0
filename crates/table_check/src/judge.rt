ghost use Rattle.std.specs.Prelude.{◌≡◌, ◌<◌, ◌≤◌, ◌↔◌, IsTrue, length};
ghost use Rattle.grid_quantiser.specs.Axes.{cells_of};
ghost use Rattle.plant_record.specs.declared.aims.GoalKind.TheVariants.{Reach};
ghost use Rattle.plant_record.specs.Description.{axes_of, vectors_of};
ghost use Rattle.game_core.specs.Game.{pairs_of};
ghost use Rattle.game_core.specs.Solution.{HasRowBelow};
ghost use Rattle.game_core.specs.Right.{IsUnwinnable, IsRight, IsRightRanked};
ghost use Rattle.table_check.specs.Judges.{judged_rows, CanJudge};
ghost use Rattle.table_check.specs.inside.Below.{LeadsBelow, NoneLeadsBelow};

use controller_table::Table;
use game_core::{Answer, CellJudge, CellTest, Forward, Mark, Row};

/// Judges the cells of games by the rows of a reach table: a cell by its row and those of its successors alone.
#[derive(Drop)]
pub struct RowJudge<'a> {
    rows: &'a Answer,
}

impl<'a> RowJudge<'a> {
    /// For the games over the cells and inputs of the table's plant.
    pub fn new(table: &'a Table) -> RowJudge<'a>
        requires { table.now.plant.goal ≡ Reach }
        ensures rows { judged_rows result ≡ table.now.rows }
        ensures judges { CanJudge table.now.rows (cells_of (axes_of table.now.plant)) (vectors_of table.now.plant.inputs) }
    {
        RowJudge {
            rows: table.answer(),
        }
    }

    /// Whether a cell's row is right.
    fn has_right_row<G: Forward>(&self, g: &G, c: u32) -> bool
        requires judged { CanJudge self.now.rows.now (G.game g.now).cells (G.game g.now).inputs }
        requires cell { c < (G.game g.now).cells }
        ensures { IsTrue result ↔ IsRight (G.game g.now) self.now.rows.now c }
    {
        let row = self.rows.row(c);
        match g.mark(c) {
            Mark::Obstacle => row.is_none(),
            Mark::Goal => row == Some(Row { rank: 0, input: 0 }),
            Mark::Plain => match row {
                Some(row) => self.is_best(g, c, row),
                None => self.is_unwinnable(g, c),
            },
        }
    }

    /// Whether the row of a plain cell is right.
    fn is_best<G: Forward>(&self, g: &G, c: u32, row: Row) -> bool
        requires one_each { length self.now.rows.now ≡ (G.game g.now).cells }
        requires cell { c < (G.game g.now).cells }
        requires input { row.input < (G.game g.now).inputs }
        ensures { IsTrue result ↔ IsRightRanked (G.game g.now) self.now.rows.now c row.rank row.input }
    {
        let inputs = g.inputs();
        row.rank > 0
            && self.leads_below(g, c * inputs + row.input, row.rank)
            && self.none_leads_below(g, c, 0, row.input, row.rank)
            && self.none_leads_below(g, c, row.input, inputs, row.rank - 1)
    }

    /// Whether a plain cell is right to have no row. No rank is as great as the number of cells.
    fn is_unwinnable<G: Forward>(&self, g: &G, c: u32) -> bool
        requires judged { CanJudge self.now.rows.now (G.game g.now).cells (G.game g.now).inputs }
        requires cell { c < (G.game g.now).cells }
        ensures { IsTrue result ↔ IsUnwinnable (G.game g.now) self.now.rows.now c }
    {
        self.none_leads_below(g, c, 0, g.inputs(), g.cells())
    }

    /// Whether no input of a range leads from a cell to ranks below the bound alone.
    fn none_leads_below<G: Forward>(&self, g: &G, c: u32, from: u32, to: u32, bound: u32) -> bool
        requires one_each { length self.now.rows.now ≡ (G.game g.now).cells }
        requires cell { c < (G.game g.now).cells }
        requires inputs { to ≤ (G.game g.now).inputs }
        ensures { IsTrue result ↔ NoneLeadsBelow (G.game g.now) self.now.rows.now c from to bound }
    {
        let first = c * g.inputs();
        for input in from..to {
            if self.leads_below(g, first + input, bound) {
                return false;
            }
        }
        true
    }

    /// Whether a pair has successors, all with rows of ranks below the bound.
    fn leads_below<G: Forward>(&self, g: &G, pair: u32, bound: u32) -> bool
        requires one_each { length self.now.rows.now ≡ (G.game g.now).cells }
        requires pair { pair < pairs_of (G.game g.now) }
        ensures { IsTrue result ↔ LeadsBelow (G.game g.now) self.now.rows.now pair bound }
    {
        let below = RankBelow {
            rows: self.rows,
            bound,
        };
        g.leads_only_to(pair, &below)
    }
}

impl CellJudge for RowJudge<'_> {
    ghost use Rattle.game_core.specs.Right.{IsRight};
    ghost use Rattle.table_check.specs.Judges.{judged_rows, CanJudge};
    ghost use Rattle.table_check.specs.inside.RightLaws.{same_right};

    ghost judges = { λ judge. CanJudge (judged_rows judge) };

    ghost is_right = { λ judge g. IsRight g (judged_rows judge) };

    fn first_wrong<G: Forward>(&self, g: &G, from: u32, to: u32) -> Option<u32> {
        for c in from..to {
            if !self.has_right_row(g, c) {
                return Some(c);
            }
        }
        None
    }

    ghost local = { λ judge g h. same_right g h (judged_rows judge) };
}

/// Whether a cell has a row of a rank below the bound.
#[derive(Drop)]
struct RankBelow<'a> {
    rows: &'a Answer,
    bound: u32,
}

impl<'a> CellTest for RankBelow<'a> {
    ghost cells = { λ below. length below.rows.now };

    ghost passes = { λ below. HasRowBelow below.rows.now below.bound };

    fn passes(&self, c: u32) -> bool {
        match self.rows.row(c) {
            Some(row) => row.rank < self.bound,
            None => false,
        }
    }
}

//! What holds of every text of a kind, and of tables.

ghost use Rattle.plant_record.specs.Limits.{IsWithinLimits};
ghost use Rattle.controller_table.specs.Tables.{RowsFit};
ghost use Rattle.controller_table.specs.Laws.{OneText, OneRefusal, NoTextIsRefused, NoTextIsNeither, OneChoice, OneRank, TablesAreShort, ReachSolutionsFit, KeepSolutionsFit};

use crate::table::Table;
use plant_record::laws::every_plant_is_within_limits;

/// No bytes are texts of two kinds, or of one kind with two plants or with other rows.
pub fn one_text()
    ensures { OneText }
{}

/// A text has at most one reason to be refused.
pub fn one_refusal()
    ensures { OneRefusal }
{}

/// No text of a kind that is accepted is refused.
pub fn no_text_is_refused()
    ensures { NoTextIsRefused }
{}

/// No bytes are neither a text of a kind that is accepted nor refused.
pub fn no_text_is_neither()
    ensures { NoTextIsNeither }
{}

/// A table chooses one input at a state.
pub fn one_choice()
    ensures { OneChoice }
{}

/// A table has at most one rank at a state.
pub fn one_rank()
    ensures { OneRank }
{}

/// A table's text has at most as many bytes as are read.
pub fn tables_are_short()
    ensures { TablesAreShort }
{}

/// The rows of the reach solution of a game over a plant's cells and input vectors fit the plant.
pub fn reach_solutions_fit()
    ensures { ReachSolutionsFit }
{}

/// So do those of the keep solution.
pub fn keep_solutions_fit()
    ensures { KeepSolutionsFit }
{}

/// Every `Table` has a plant within the limits, and rows that fit it.
pub fn every_table_fits(t: &Table)
    ensures limits { IsWithinLimits t.now.plant }
    ensures rows { RowsFit t.now.plant t.now.rows }
{
    t.rows();
    every_plant_is_within_limits(t.plant());
}

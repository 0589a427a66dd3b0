//! What a plant's goal makes of its rows.

ghost use Rattle.std.specs.Prelude.{◌≡◌, IsTrue, IsFalse, Some, None};
ghost use Rattle.controller_table.specs.TableText.{format_of};
ghost use Rattle.controller_table.specs.Choice.{has_arrived, applied};

use game_core::Row;
use plant_record::GoalKind;
use row_runs::RowFormat;

/// What the rows of a plant with this goal print.
pub fn format_of(goal: GoalKind) -> RowFormat
    ensures { result ≡ format_of goal }
{
    match goal {
        GoalKind::Reach => RowFormat::InputAboveZero,
        GoalKind::Keep => RowFormat::InputAlone,
    }
}

/// Whether a plant is where it was to be brought: its row there applies no input, and any other row its own.
pub fn has_arrived(goal: GoalKind, row: Row) -> bool
    ensures arrived { result ≡ has_arrived goal row }
    ensures none { IsTrue result → (row.rank ≡ 0) × (applied goal row ≡ None) }
    ensures some { IsFalse result → applied goal row ≡ Some row.input }
{
    match goal {
        GoalKind::Reach => row.rank == 0,
        GoalKind::Keep => false,
    }
}

ghost use Rattle.std.specs.Prelude.{◌≡◌, ◌≤◌, ◌<◌, length};
ghost use Rattle.std.specs.List.{All};
ghost use Rattle.game_core.specs.declared.game.Row.{Row};
ghost use Rattle.plant_record.specs.declared.aims.GoalKind.TheVariants.{Reach};
ghost use Rattle.plant_record.specs.Limits.{IsWithinLimits};
ghost use Rattle.plant_record.specs.Steps.{IsNoise};
ghost use Rattle.successor_box.specs.Deviations.{HasNoOverflow, deviations_of};
ghost use Rattle.controller_table.specs.Choice.{HasRowAt};
ghost use Rattle.plant_refine.specs.RightRows.{AreRightRowsOf};
ghost use Rattle.plant_refine.specs.Trajectories.{StepsTo, ArrivesFirst};
ghost use Rattle.plant_refine.specs.inside.Descents.{HasLowerRow};

use crate::cells::next_cell;
use crate::targets::lies_in_target;
use controller_table::Table;
use controller_table::laws::every_table_fits;
use grid_quantiser::Point;
use plant_record::Plant;
use successor_box::Slopes;

/// Where a driven plant comes into a target, and at which sample, counted from 0 at the start.
#[derive(Clone, Copy, PartialEq, Eq)]
pub struct Driven {
    pub arrived_at: u32,
    pub at: Point,
}

/// Drives a plant by a table, under one noise for each sample, until it lies in a target.
pub fn drive(p: &Plant, s: &Slopes, t: &Table, x: &Point, noises: &[Point]) -> Driven
    requires slopes { s.now ≡ deviations_of p.now }
    requires fits { HasNoOverflow p.now }
    requires plant { t.now.plant ≡ p.now }
    requires goal { p.now.goal ≡ Reach }
    requires right { AreRightRowsOf p.now t.now.rows }
    requires start { (row : Row) × HasRowAt p.now t.now.rows x.now row × (row.rank ≤ length noises.now) }
    requires noises { All (IsNoise p.now.noises) noises.now }
    ensures arrives { ArrivesFirst p.now t.now.rows x.now noises.now result.arrived_at result.at }
    ensures bound { (row : Row) → HasRowAt p.now t.now.rows x.now row → result.arrived_at ≤ row.rank }
{
    every_table_fits(t);
    let mut at = p.state_point(x);
    for (sample, noise) in noises.iter().enumerate() {
        if lies_in_target(p, &at) {
            return Driven {
                arrived_at: sample as u32,
                at,
            };
        }
        at = next_state(p, s, t, &at, noise);
    }
    Driven {
        arrived_at: noises.len() as u32,
        at,
    }
}

/// The state one sample later, under the table's choice.
fn next_state(p: &Plant, s: &Slopes, t: &Table, x: &Point, noise: &Point) -> Point
    requires limits { IsWithinLimits p.now }
    requires slopes { s.now ≡ deviations_of p.now }
    requires fits { HasNoOverflow p.now }
    requires plant { t.now.plant ≡ p.now }
    requires goal { p.now.goal ≡ Reach }
    requires right { AreRightRowsOf p.now t.now.rows }
    requires row { (row : Row) × HasRowAt p.now t.now.rows x.now row × (0 < row.rank) }
    requires noise { IsNoise p.now.noises noise.now }
    ensures moves { StepsTo p.now t.now.rows x.now noise.now result }
    ensures lower { (row : Row) → HasRowAt p.now t.now.rows x.now row → HasLowerRow p.now t.now.rows row.rank result }
{
    let Some(input) = t.choice(x) else {
        unreachable!()
    };
    let (next, _) = next_cell(p, s, x, input, noise);
    next
}

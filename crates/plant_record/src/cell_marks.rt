//! Whether a cell meets one of some boxes, or lies in one.

ghost use Rattle.std.specs.Prelude.{◌<◌, ◌↔◌, IsTrue};
ghost use Rattle.std.specs.List.{All, Any};
ghost use Rattle.grid_quantiser.specs.Axes.{cells_of};
ghost use Rattle.grid_quantiser.specs.CellBoxes.{IsAtMost, Touches, LiesInside};
ghost use Rattle.plant_record.specs.declared.aims.StateBox.{StateBox};

use crate::aims::StateBox;
use grid_quantiser::Grid;

/// Whether some point of a cell lies in one of the boxes.
pub fn touches_one(grid: &Grid, c: u32, boxes: &[StateBox]) -> bool
    requires cell { c < cells_of grid.now }
    requires ordered { All (λ (b : StateBox). IsAtMost grid.now b.low b.high) boxes.now }
    ensures { IsTrue result ↔ Any (λ (b : StateBox). Touches grid.now c b.low b.high) boxes.now }
{
    boxes.iter().any(|b| grid.touches(c, &b.low, &b.high))
}

/// Whether all points of a cell lie in one of the boxes.
pub fn lies_in_one(grid: &Grid, c: u32, boxes: &[StateBox]) -> bool
    requires cell { c < cells_of grid.now }
    requires ordered { All (λ (b : StateBox). IsAtMost grid.now b.low b.high) boxes.now }
    ensures { IsTrue result ↔ Any (λ (b : StateBox). LiesInside grid.now c b.low b.high) boxes.now }
{
    boxes.iter().any(|b| grid.inside(c, &b.low, &b.high))
}

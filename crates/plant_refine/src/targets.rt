//! Whether a state lies in a target.

ghost use Rattle.std.specs.Prelude.{◌↔◌, IsTrue};
ghost use Rattle.grid_quantiser.specs.CellBoxes.{IsInBox};
ghost use Rattle.plant_record.specs.States.{LiesInSome};

use grid_quantiser::{Grid, Point};
use plant_record::Plant;

/// Whether a state lies in a target box.
pub(crate) fn lies_in_target(p: &Plant, x: &Point) -> bool
    ensures { IsTrue result ↔ LiesInSome p.now p.now.targets x.now }
{
    for k in 0..p.targets() {
        let (low, high) = p.target(k);
        if lies_in(p.grid(), &low, &high, x) {
            return true;
        }
    }
    false
}

/// Whether a state lies in the box from `low` to `high`.
fn lies_in(grid: &Grid, low: &Point, high: &Point, x: &Point) -> bool
    ensures { IsTrue result ↔ IsInBox grid.now low.now high.now x.now }
{
    for i in 0..grid.states() as usize {
        if x[i] < low[i] || high[i] < x[i] {
            return false;
        }
    }
    true
}

ghost use Rattle.std.specs.Prelude.{◌≡◌, ◌<◌};
ghost use Rattle.grid_quantiser.specs.Cells.{IsInDomain, cell_of, point_of};
ghost use Rattle.plant_record.specs.Description.{axes_of, vectors_of};
ghost use Rattle.plant_record.specs.Steps.{IsNoise, step_of};
ghost use Rattle.successor_box.specs.SuccessorBoxes.{IsEnabledAt};
ghost use Rattle.successor_box.specs.Deviations.{HasNoOverflow, deviations_of};
ghost use Rattle.plant_refine.specs.Trajectories.{IsSuccessor};

use grid_quantiser::Point;
use plant_record::laws::every_plant_is_within_limits;
use plant_record::{Plant, step};
use successor_box::Slopes;

/// The state one sample later and its cell, which is a successor of the pair.
pub fn next_cell(p: &Plant, s: &Slopes, x: &Point, input: u32, noise: &Point) -> (Point, u32)
    requires slopes { s.now ≡ deviations_of p.now }
    requires fits { HasNoOverflow p.now }
    requires input { input < vectors_of p.now.inputs }
    requires inside { IsInDomain (axes_of p.now) x.now }
    requires enabled { IsEnabledAt p.now (cell_of (axes_of p.now) x.now) input }
    requires noise { IsNoise p.now.noises noise.now }
    ensures step { result.0 ≡ point_of (step_of p.now x.now input noise.now) }
    ensures inside { IsInDomain (axes_of p.now) (step_of p.now x.now input noise.now) }
    ensures cell { result.1 ≡ cell_of (axes_of p.now) (step_of p.now x.now input noise.now) }
    ensures successor { IsSuccessor p.now (cell_of (axes_of p.now) x.now) input result.1 }
{
    every_plant_is_within_limits(p);
    let Some(next) = step(p, x, input, noise) else {
        unreachable!()
    };
    let Some(cell) = p.grid().cell_of(&next) else {
        unreachable!()
    };
    (next, cell)
}

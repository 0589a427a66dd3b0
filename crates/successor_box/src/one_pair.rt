ghost use Rattle.std.specs.Prelude.{◌≡◌, ◌<◌};
ghost use Rattle.grid_quantiser.specs.Axes.{cells_of};
ghost use Rattle.plant_record.specs.Description.{axes_of, vectors_of};
ghost use Rattle.successor_box.specs.SuccessorBoxes.{IsBoxOf};
ghost use Rattle.successor_box.specs.Deviations.{HasNoOverflow, deviations_of};

use crate::sampled::Sampled;
use crate::slopes::Slopes;
use base::limits::STATES_LIMIT;
use grid_quantiser::CellBox;
use plant_record::Plant;

/// The cells that a cell's points can be in one sample later, under an input vector: None where the
/// successor box leaves the domain. It takes no memory.
#[tactic(auto, using(crate::proofs::DeviationLanes::equations_count, crate::proofs::PairExtents::extents_of_box))]
pub fn successors(p: &Plant, s: &Slopes, c: u32, input: u32) -> Option<CellBox>
    requires slopes { s.now ≡ deviations_of p.now }
    requires fits { HasNoOverflow p.now }
    requires cell { c < cells_of (axes_of p.now) }
    requires input { input < vectors_of p.now.inputs }
    ensures { IsBoxOf p.now c input result }
{
    let sampled = Sampled::new(p, s);
    let mut extents = [None; STATES_LIMIT];
    for state in 0..p.equations().len() {
        extents[state] = sampled.extent(c, input, state as u32);
    }
    p.grid().box_with(&extents)
}

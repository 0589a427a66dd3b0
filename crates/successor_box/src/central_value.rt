//! The values of the variables at the centre of a cell, one by one.
ghost use Rattle.std.specs.Prelude.{◌≡◌, ℕ, ◌*ℤ◌, ◌+ℤ◌, ◌<◌, pos, length, slice_index_or};
ghost use Rattle.base.specs.Narrow.{IsNarrow};
ghost use Rattle.grid_quantiser.specs.Indices.{middle_of};
ghost use Rattle.plant_record.specs.Limits.{IsWithinLimits};
ghost use Rattle.successor_box.specs.SuccessorBoxes.{central_values};
ghost use Rattle.successor_box.specs.inside.Area.{variables_of, axis_along};
ghost use Rattle.successor_box.specs.inside.Lines.{HasIndexIn};

use crate::noise_centres::noise_centre;
use plant_record::{Plant, Variable};

/// The most variables in which a pair of a cell and an input vector has indices: 6 states and 3 input variables.
pub const INDICES_LIMIT: usize = 9;

/// The value of a variable at the centre of each cell, under each input vector, that have this index in it.
pub(crate) fn central_value(p: &Plant, indices: &[u32; INDICES_LIMIT], k: u32) -> i64
    requires plant { IsWithinLimits p.now }
    requires variable { k < variables_of p.now }
    requires pair { (c u : ℕ) × HasIndexIn p.now indices.now k c u }
    ensures { (c u : ℕ) → HasIndexIn p.now indices.now k c u → result ≡ slice_index_or (central_values p.now c u) k (pos 0) }
{
    match p.variable(k) {
        Variable::State(i) => {
            let (first, width) = first_middle(p, i);
            middle(first, width, indices[k as usize])
        }
        Variable::Input(i) => p.value_at(i, indices[k as usize]) as i64,
        Variable::Noise(i) => noise_centre(p, i) as i64,
    }
}

/// The middle of the first index along the axis of a state, and how far one index is from the next.
#[tactic(auto, using(crate::proofs::Middles::state_room))]
pub(crate) fn first_middle(p: &Plant, state: u32) -> (i64, i64)
    requires plant { IsWithinLimits p.now }
    requires state { state < length p.now.states }
    ensures middle { result.0 ≡ middle_of (axis_along p.now state) 0 }
    ensures width { result.1 ≡ (axis_along p.now state).width }
{
    let grid = p.grid();
    (grid.first_centre(state) as i64, grid.width(state) as i64)
}

/// The middle of an index, from that of the first one.
#[inline]
pub(crate) fn middle(first: i64, width: i64, index: u32) -> i64
    requires way { IsNarrow (width *ℤ pos index) }
    requires fits { IsNarrow (first +ℤ (width *ℤ pos index)) }
    ensures { result ≡ first +ℤ (width *ℤ pos index) }
{
    first + width * i64::from(index)
}

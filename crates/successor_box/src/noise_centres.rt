//! The centres of the noises' ranges.

ghost use Rattle.std.specs.Prelude.{◌≡◌, ◌<◌, nat_abs, pos, ◌+ℤ◌, length, map, slice_index_or};
ghost use Rattle.fixed_expr.specs.DivExpr.{floor_div};
ghost use Rattle.grid_quantiser.specs.Cells.{point_of};
ghost use Rattle.plant_record.specs.Limits.{IsWithinLimits};
ghost use Rattle.successor_box.specs.SuccessorBoxes.{noise_centre};
ghost use Rattle.successor_box.specs.inside.Area.{no_range, noise_offset};
ghost use Rattle.base.specs.declared.limits.TheConstants.{NUMBER_LIMIT};

use base::limits::STATES_LIMIT;
use grid_quantiser::Point;
use interval_eval::Interval;
use plant_record::Plant;

/// The middle of a noise's range, rounded down.
#[inline]
#[tactic(auto, using(crate::proofs::Ranges::noise_at))]
pub(crate) fn noise_centre(p: &Plant, k: u32) -> i128
    requires plant { IsWithinLimits p.now }
    requires noise { k < length p.now.noises }
    ensures centre { result ≡ slice_index_or (map noise_centre p.now.noises) k (pos 0) }
    ensures short { nat_abs result < NUMBER_LIMIT }
{
    let (low, high) = p.noise_range(k);
    halfway(low, high)
}

/// How far the ends of a noise's range lie from its centre.
#[tactic(auto, using(crate::proofs::Ranges::noise_at))]
pub(crate) fn noise_offset(p: &Plant, k: u32) -> Interval
    requires plant { IsWithinLimits p.now }
    requires noise { k < length p.now.noises }
    ensures { result ≡ slice_index_or (map noise_offset p.now.noises) k no_range }
{
    let (low, high) = p.noise_range(k);
    let centre = halfway(low, high);
    Interval {
        lo: low - centre,
        hi: high - centre,
    }
}

/// The middle of a range, rounded down.
#[inline]
fn halfway(low: i128, high: i128) -> i128
    requires low { nat_abs low < NUMBER_LIMIT }
    requires high { nat_abs high < NUMBER_LIMIT }
    ensures { result ≡ floor_div (low +ℤ high) (pos 2) }
{
    (low + high).div_euclid(2)
}

/// The centres of all noises.
#[inline]
pub(crate) fn noise_centres(p: &Plant) -> Point
    requires plant { IsWithinLimits p.now }
    ensures { result ≡ point_of (map noise_centre p.now.noises) }
{
    let mut centres = [0; STATES_LIMIT];
    for k in 0..p.noises() {
        centres[k as usize] = noise_centre(p, k);
    }
    centres
}

ghost use Rattle.std.specs.Prelude.{◌<◌};
ghost use Rattle.grid_quantiser.specs.Axes.{cells_of, AreAxes};
ghost use Rattle.grid_quantiser.specs.CellBoxes.{Touches, LiesInside, IsBoxWith};
ghost use Rattle.grid_quantiser.specs.inside.Overlaps.{IsCellWith};

use crate::axis::Overlap;
use crate::boxes::CellBox;
use crate::grid::{Grid, Point};
use base::limits::STATES_LIMIT;
use mixed_radix::encode;

impl Grid {
    /// The cells that touch the box from `lo` to `hi`, which may stick out of the domain.
    pub fn touching(&self, lo: &Point, hi: &Point) -> Option<CellBox>
        ensures { IsBoxWith self.now (λ c. Touches self.now c lo.now hi.now) result }
    {
        self.cells_with(lo, hi, Overlap::Partial)
    }

    /// The cells that lie with all their points in the box from `lo` to `hi`, which may stick out of
    /// the domain.
    pub fn within(&self, lo: &Point, hi: &Point) -> Option<CellBox>
        ensures { IsBoxWith self.now (λ c. (c < cells_of self.now) × LiesInside self.now c lo.now hi.now) result }
    {
        self.cells_with(lo, hi, Overlap::Whole)
    }

    /// The cells whose index along each axis has such an overlap in the box from `lo` to `hi`.
    fn cells_with(&self, lo: &Point, hi: &Point, overlap: Overlap) -> Option<CellBox>
        ensures axes { AreAxes self.now }
        ensures cells { IsBoxWith self.now (λ c. IsCellWith overlap self.now lo.now hi.now c) result }
    {
        let axes = self.axes();
        let mut first = [0; STATES_LIMIT];
        let mut last = [0; STATES_LIMIT];
        for i in 0..axes.len() {
            let (low, high) = axes[i].indices_in(lo[i], hi[i], overlap)?;
            first[i] = low as u32;
            last[i] = high as u32;
        }
        let counts = self.counts();
        Some(CellBox {
            first: encode(counts, &first),
            last: encode(counts, &last),
        })
    }
}

ghost use Rattle.std.specs.Prelude.{◌≡◌, [], IfSome, IfNone};
ghost use Rattle.grid_quantiser.specs.CellBoxes.{IsCellBox, cells_between};
ghost use Rattle.grid_quantiser.specs.Segments.{BeginsWithSegment};

use crate::boxes::CellBox;
use crate::grid::Grid;
use std::marker::Model;

/// The cells of a box that are still to come, in rising order.
#[derive(Drop)]
pub struct Segments {
    grid: Grid,
    cells: CellBox,
    count: u64,
    /// As many cells as differ in the last state alone.
    per_segment: u32,
    given: u64,
}

impl Model for Segments {
    ghost use Rattle.std.specs.Prelude.{List, ℕ, drop};
    ghost use Rattle.grid_quantiser.specs.CellBoxes.{cells_between};
    ghost use Rattle.grid_quantiser.specs.inside.SegmentFields.{AreSegments};

    ghost Value = { List ℕ };

    ghost view = { λ r. drop r.given (cells_between r.grid r.cells.first r.cells.last) };

    ghost invariant = { λ r. AreSegments r.grid r.cells r.count r.per_segment r.given };
}

impl Grid {
    /// The cells of a box, segment by segment.
    #[inline]
    pub fn segments(&self, b: CellBox) -> Segments
        requires { IsCellBox self.now b.first b.last }
        ensures { result ≡ cells_between self.now b.first b.last }
    {
        Segments {
            grid: *self,
            cells: b,
            count: self.box_count(b),
            per_segment: self.segment_length(b),
            given: 0,
        }
    }
}

impl Segments {
    /// The next cells that follow one another: the first of them and how many they are. None where
    /// all cells were given, and at every later call.
    #[inline]
    pub fn next_segment(&mut self) -> Option<(u32, u32)>
        ensures none { IfNone result (self.old ≡ []) }
        ensures ended { IfNone result (self.new ≡ []) }
        ensures segment { IfSome result (λ segment. BeginsWithSegment self.old self.new segment.0 segment.1) }
    {
        if self.given == self.count {
            return None;
        }
        let first = self.grid.nth_of(self.cells, self.given);
        self.given += u64::from(self.per_segment);
        Some((first, self.per_segment))
    }
}

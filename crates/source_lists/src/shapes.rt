//! The segments of the cells of boxes, listed once for all boxes of one shape.
ghost use Rattle.std.specs.Prelude.{◌≡◌, ◌≢◌, ◌+◌, ◌-◌, ◌<◌, ◌≤◌, ◌↔◌, IsTrue, [], length, sum, IfOk};
ghost use Rattle.std.specs.List.{All, range_with_len};
ghost use Rattle.grid_quantiser.specs.Axes.{cells_of};
ghost use Rattle.grid_quantiser.specs.CellBoxes.{IsCellBox, cells_between};
ghost use Rattle.source_lists.specs.Fans.{counts_of, AreShapes};
ghost use Rattle.source_lists.specs.Shapes.{cells_from, EndsBy, IsListed, segments_at, HasSegmentsAt, EachShapeHasSegments, cells_listed, IsListedBox};
ghost use Rattle.source_lists.specs.inside.ListedSegments.{ListsSegments, KeepsSegments};
ghost use Rattle.base.specs.declared.limits.TheConstants.{CELLS_LIMIT, EDGES_LIMIT};

use crate::fans::Fans;
use game_core::CellTest;
use grid_quantiser::{CellBox, Grid, Segments};
use std::alloc::{AllocError, Global};

/// Cells that follow one another: how far the first of them is from the first cell of their box, and
/// how many they are.
#[derive(Clone, Copy)]
pub(crate) struct Segment {
    pub(crate) start: u32,
    pub(crate) len: u32,
}

/// Where the segments of a shape stand among those of all shapes.
#[derive(Clone, Copy)]
pub(crate) struct SegmentRange {
    pub(crate) from: u32,
    pub(crate) to: u32,
}

/// What stands for a shape that isn't listed.
pub(crate) const NO_SEGMENTS: SegmentRange = SegmentRange { from: 0, to: 0 };

/// The segments of the shapes of boxes. A box is its shape, shifted by its first cell, and how far its last
/// cell is from its first gives the shape.
#[derive(Drop)]
pub struct Shapes {
    /// One for each such distance.
    pub(crate) ranges: Vec<SegmentRange>,
    pub(crate) segments: Vec<Segment>,
}

impl Shapes {
    /// Whether there is a box, and each of its cells passes a test. The corners come first, since they mostly show that
    /// not all pass.
    #[inline]
    pub fn box_passes<T: CellTest>(&self, b: Option<CellBox>, test: &T) -> bool
        requires listed { IsListedBox self.now (T.cells test.now) b }
        requires few { T.cells test.now ≤ CELLS_LIMIT }
        ensures { IsTrue result ↔ (cells_listed self.now b ≢ []) × All (T.passes test.now) (cells_listed self.now b) }
    {
        let Some(b) = b else {
            return false;
        };
        test.passes(b.last) && test.passes(b.first) && all_pass(b.first, self.segments_of(b), test)
    }

    /// The segments of a box.
    #[inline]
    pub(crate) fn segments_of(&self, b: CellBox) -> &[Segment]
        requires ordered { b.first ≤ b.last }
        requires listed { IsListed self.now (b.last - b.first) }
        ensures { result.now ≡ segments_at self.now (b.last - b.first) }
    {
        let range = self.ranges[(b.last - b.first) as usize];
        &self.segments[range.from as usize..range.to as usize]
    }

    /// Pushes the segments of the shape of a distance.
    pub(crate) fn push_shape(&mut self, grid: &Grid, distance: u32) -> Result<(), AllocError>
        requires shape { IsCellBox grid.now 0 distance }
        requires within { distance < length self.old.ranges.items }
        requires few { length self.old.segments.items + length (cells_between grid.now 0 distance) ≤ EDGES_LIMIT }
        ensures distances { length self.new.ranges.items ≡ length self.old.ranges.items }
        ensures kept { IfOk result (λ _. KeepsSegments grid.now self.old self.new) }
        ensures listed { IfOk result (λ _. HasSegmentsAt grid.now self.new distance) }
        ensures few { IfOk result (λ _. length self.new.segments.items ≤ length self.old.segments.items + length (cells_between grid.now 0 distance)) }
    {
        let shape = CellBox {
            first: 0,
            last: distance,
        };
        let from = self.segments.len() as u32;
        push_segments(grid.segments(shape), &mut self.segments)?;
        let to = self.segments.len() as u32;
        self.ranges[distance as usize] = SegmentRange { from, to };
        Ok(())
    }
}

/// The segments of the shapes whose cells are counted.
pub fn build_shapes(alloc: Global, grid: &Grid, fans: &Fans) -> Result<Shapes, AllocError>
    requires limit { cells_of grid.now ≤ CELLS_LIMIT }
    requires distances { length (counts_of fans.now) ≤ cells_of grid.now }
    requires shapes { AreShapes grid.now (counts_of fans.now) }
    requires few { sum (counts_of fans.now) ≤ EDGES_LIMIT }
    ensures { IfOk result (λ shapes. EachShapeHasSegments grid.now shapes (counts_of fans.now)) }
{
    let mut shapes = Shapes {
        ranges: vec![in alloc; NO_SEGMENTS; fans.counts.len()]?,
        segments: Vec::new(alloc),
    };
    for distance in 0..fans.counts.len() as u32 {
        if fans.counts[distance as usize] > 0 {
            shapes.push_shape(grid, distance)?;
        }
    }
    Ok(shapes)
}

/// Puts the segments of cells at the end of a list.
fn push_segments(mut cells: Segments, segments: &mut Vec<Segment>) -> Result<(), AllocError>
    ensures { IfOk result (λ _. ListsSegments segments.old.items segments.new.items cells) }
{
    while let Some((start, len)) = cells.next_segment() {
        segments.push(Segment { start, len })?;
    }
    Ok(())
}

/// Whether each cell of segments, counted from a first cell, passes a test.
#[inline]
fn all_pass<T: CellTest>(first: u32, segments: &[Segment], test: &T) -> bool
    requires within { All (EndsBy (T.cells test.now) first) segments.now }
    requires few { T.cells test.now ≤ CELLS_LIMIT }
    ensures { IsTrue result ↔ All (T.passes test.now) (cells_from first segments.now) }
{
    for segment in segments {
        if !segment_passes(first + segment.start, segment.len, test) {
            return false;
        }
    }
    true
}

/// Whether so many cells from a first one on all pass a test.
#[inline]
fn segment_passes<T: CellTest>(first: u32, len: u32, test: &T) -> bool
    requires within { first + len ≤ T.cells test.now }
    requires few { T.cells test.now ≤ CELLS_LIMIT }
    ensures { IsTrue result ↔ All (T.passes test.now) (range_with_len first len) }
{
    for c in first..first + len {
        if !test.passes(c) {
            return false;
        }
    }
    true
}

ghost use Rattle.std.specs.Prelude.{◌≡◌, ◌-◌, ◌<◌, ◌≤◌, ◌↔◌, length, slice_index, IsTrue, IsSome, IfSome};
ghost use Rattle.std.specs.List.{Contains};
ghost use Rattle.base.specs.declared.limits.TheConstants.{CELLS_LIMIT, STATES_LIMIT};
ghost use Rattle.grid_quantiser.specs.Axes.{counts_of, cells_of, AreAxes};
ghost use Rattle.mixed_radix.specs.Boxes.{box_counts, last_of};
ghost use Rattle.grid_quantiser.specs.CellBoxes.{IsAtMost, IsBoxInDomain, Touches, LiesInside, AreCornersMeeting, IsCellBox, cells_between};
ghost use Rattle.grid_quantiser.specs.inside.Overlaps.{HasOverlap};

use crate::axis::{Axis, Overlap};
use crate::grid::{Grid, Point};
use base::limits::STATES_LIMIT;
use mixed_radix::{box_size, decode, nth};

/// A box of cells of a grid, by the numbers of its lowest and its highest corner.
#[derive(Clone, Copy, PartialEq, Eq)]
pub struct CellBox {
    pub first: u32,
    pub last: u32,
}

impl Grid {
    /// The cells that meet the box from `lo` to `hi`. A box that leaves the domain has none, and is
    /// not clipped: a state in the part outside would have no cell.
    #[inline]
    pub fn meeting(&self, lo: &Point, hi: &Point) -> Option<CellBox>
        requires { IsAtMost self.now lo.now hi.now }
        ensures inside { IsSome result ↔ IsBoxInDomain self.now lo.now hi.now }
        ensures corners { IfSome result (λ b. AreCornersMeeting self.now lo.now hi.now b.first b.last) }
    {
        let first = self.cell_of(lo)?;
        let last = self.cell_of(hi)?;
        Some(CellBox { first, last })
    }

    /// How many cells are in a box.
    #[inline]
    pub fn box_count(&self, b: CellBox) -> u64
        requires { IsCellBox self.now b.first b.last }
        ensures count { result ≡ length (cells_between self.now b.first b.last) }
        ensures some { 1 ≤ result }
        ensures limit { result ≤ cells_of self.now }
    {
        u64::from(box_size(self.counts(), b.last - b.first))
    }

    /// How many cells of a box differ in the last state alone.
    #[inline]
    pub(crate) fn segment_length(&self, b: CellBox) -> u32
        requires { IsCellBox self.now b.first b.last }
        ensures length { result ≡ last_of (box_counts (counts_of self.now) (b.last - b.first)) }
        ensures grid { AreAxes self.now }
        ensures limit { cells_of self.now ≤ CELLS_LIMIT }
    {
        let counts = self.counts();
        (b.last - b.first) % counts[counts.len() - 1] + 1
    }

    /// Whether a cell is in a box.
    pub fn box_has(&self, b: CellBox, c: u32) -> bool
        requires ordered { IsCellBox self.now b.first b.last }
        requires cell { c < cells_of self.now }
        ensures { IsTrue result ↔ Contains (cells_between self.now b.first b.last) c }
    {
        let counts = self.counts();
        let first = decode(counts, b.first);
        let last = decode(counts, b.last);
        let indices = decode(counts, c);
        for i in 0..counts.len() {
            if indices[i] < first[i] || last[i] < indices[i] {
                return false;
            }
        }
        true
    }

    /// The cell of a number from 0 among those of a box.
    #[inline]
    pub fn nth_of(&self, b: CellBox, i: u64) -> u32
        requires ordered { IsCellBox self.now b.first b.last }
        requires within { i < length (cells_between self.now b.first b.last) }
        ensures nth { result ≡ slice_index (cells_between self.now b.first b.last) i }
        ensures below { result < cells_of self.now }
    {
        b.first + nth(self.counts(), b.last - b.first, i as u32)
    }

    /// Whether all points of a cell lie in the box from `lo` to `hi`.
    #[inline]
    pub fn inside(&self, c: u32, lo: &Point, hi: &Point) -> bool
        requires cell { c < cells_of self.now }
        requires ordered { IsAtMost self.now lo.now hi.now }
        ensures { IsTrue result ↔ LiesInside self.now c lo.now hi.now }
    {
        self.has_overlap(c, lo, hi, Overlap::Whole)
    }

    /// Whether some point of a cell lies in the box from `lo` to `hi`.
    #[inline]
    pub fn touches(&self, c: u32, lo: &Point, hi: &Point) -> bool
        requires cell { c < cells_of self.now }
        requires ordered { IsAtMost self.now lo.now hi.now }
        ensures { IsTrue result ↔ Touches self.now c lo.now hi.now }
    {
        self.has_overlap(c, lo, hi, Overlap::Partial)
    }

    /// Whether the index of a cell has such an overlap in the box from `lo` to `hi` in each state.
    #[inline]
    fn has_overlap(&self, c: u32, lo: &Point, hi: &Point, overlap: Overlap) -> bool
        requires cell { c < cells_of self.now }
        requires ordered { IsAtMost self.now lo.now hi.now }
        ensures overlap { IsTrue result ↔ HasOverlap overlap self.now lo.now hi.now c }
        ensures axes { AreAxes self.now }
    {
        let axes = self.axes();
        is_at_most(axes, lo, &self.point(c, overlap.first_point()))
            && is_at_most(axes, &self.point(c, overlap.last_point()), hi)
    }
}

/// Whether `xs` is at most `ys` in each state.
fn is_at_most(axes: &[Axis], xs: &Point, ys: &Point) -> bool
    requires { length axes.now ≤ STATES_LIMIT }
    ensures { IsTrue result ↔ IsAtMost axes.now xs.now ys.now }
{
    for i in 0..axes.len() {
        if ys[i] < xs[i] {
            return false;
        }
    }
    true
}

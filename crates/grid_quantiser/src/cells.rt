ghost use Rattle.std.specs.Prelude.{◌≡◌, ℕ, ◌<◌, ◌≤◌, ◌↔◌, pos, length, slice_index_or, IsSome, IfSome};
ghost use Rattle.grid_quantiser.specs.Axes.{cells_of, AreAxes};
ghost use Rattle.grid_quantiser.specs.Cells.{IsInDomain, cell_of, low_of, centre_of, high_of, point_of};
ghost use Rattle.grid_quantiser.specs.inside.Spots.{numbers_of, HoldsIndices};
ghost use Rattle.base.specs.declared.limits.TheConstants.{CELLS_LIMIT};

use crate::axis::{Axis, CellPoint};
use crate::grid::{Grid, Point};
use base::limits::STATES_LIMIT;
use mixed_radix::{decode, encode};

impl Grid {
    /// The cell of a state: the static quantiser of an abstraction by cells (Reissig, Weber and
    /// Rungger, 2017).
    #[inline]
    pub fn cell_of(&self, x: &Point) -> Option<u32>
        ensures inside { IsSome result ↔ IsInDomain self.now x.now }
        ensures cell { IfSome result (λ c. c ≡ cell_of self.now x.now) }
        ensures below { IfSome result (λ c. c < cells_of self.now) }
        ensures axes { AreAxes self.now }
    {
        let indices = indices_on(self.axes(), x)?;
        Some(encode(self.counts(), &indices))
    }

    /// The cell of a state whose numbers have 64 bits.
    pub fn cell_at(&self, state: &[i64]) -> Option<u32>
        requires { length state.now ≡ length self.now }
        ensures inside { IsSome result ↔ IsInDomain self.now state.now }
        ensures cell { IfSome result (λ c. c ≡ cell_of self.now state.now) }
        ensures below { IfSome result (λ c. c < cells_of self.now) }
    {
        self.cell_of(&wide_point(self.axes(), state))
    }

    /// The centre of a cell. Along an even width it is the greater of the two middle numbers.
    #[inline]
    pub fn centre(&self, c: u32) -> Point
        requires { c < cells_of self.now }
        ensures { result ≡ point_of (centre_of self.now c) }
    {
        self.point(c, CellPoint::Centre)
    }

    /// The least point of a cell.
    #[inline]
    pub fn low(&self, c: u32) -> Point
        requires { c < cells_of self.now }
        ensures { result ≡ point_of (low_of self.now c) }
    {
        self.point(c, CellPoint::Low)
    }

    /// The greatest point of a cell.
    #[inline]
    pub fn high(&self, c: u32) -> Point
        requires { c < cells_of self.now }
        ensures { result ≡ point_of (high_of self.now c) }
    {
        self.point(c, CellPoint::High)
    }

    /// One number of each state's index in a cell.
    #[inline]
    pub(crate) fn point(&self, c: u32, cell_point: CellPoint) -> Point
        requires { c < cells_of self.now }
        ensures { result ≡ point_of (numbers_of cell_point self.now c) }
    {
        let axes = self.axes();
        let indices = decode(self.counts(), c);
        let mut point = [0; STATES_LIMIT];
        for i in 0..axes.len() {
            point[i] = axes[i].number(u64::from(indices[i]), cell_point);
        }
        point
    }
}

/// The index of a state on each axis, where it is in the domain. Past the last axis it is 0.
fn indices_on(axes: &[Axis], x: &Point) -> Option<[u32; STATES_LIMIT]>
    requires axes { AreAxes axes.now }
    requires limit { cells_of axes.now ≤ CELLS_LIMIT }
    ensures inside { IsSome result ↔ IsInDomain axes.now x.now }
    ensures each { IfSome result (λ indices. HoldsIndices axes.now x.now indices) }
{
    let mut indices = [0; STATES_LIMIT];
    for i in 0..axes.len() {
        indices[i] = axes[i].index_holding(x[i])? as u32;
    }
    Some(indices)
}

/// A state as a point.
fn wide_point(axes: &[Axis], state: &[i64]) -> Point
    requires axes { AreAxes axes.now }
    requires long { length state.now ≡ length axes.now }
    ensures { (k : ℕ) → k < length axes.now → slice_index_or result k (pos 0) ≡ slice_index_or state.now k (pos 0) }
{
    let mut point = [0; STATES_LIMIT];
    for i in 0..axes.len() {
        point[i] = i128::from(state[i]);
    }
    point
}

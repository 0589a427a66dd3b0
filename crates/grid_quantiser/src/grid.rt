ghost use Rattle.std.specs.Prelude.{◌≡◌, ◌*◌, ◌<◌, ◌≤◌, ◌↔◌, length, IfOk, IsErr};
ghost use Rattle.grid_quantiser.specs.Axes.{counts_of, cells_of, IsAxis, AreAxes, axis_at};
ghost use Rattle.grid_quantiser.specs.inside.Storage.{six_counts};
ghost use Rattle.mixed_radix.specs.Radix.{size};
ghost use Rattle.grid_quantiser.specs.Cells.{radius_of};
ghost use Rattle.grid_quantiser.specs.Indices.{middle_of};
ghost use Rattle.base.specs.declared.limits.TheConstants.{CELLS_LIMIT, STATES_LIMIT};

use crate::axis::{Axis, CellPoint, NO_AXIS};
use base::limits::{CELLS_LIMIT, STATES_LIMIT};
use std::marker::Model;

/// The numbers of a state, one for each axis of the grid. What stands past the last axis is 0 in
/// an answer, and isn't looked at in what a call is given.
pub type Point = [i128; STATES_LIMIT];

/// The grid would have more than 2^20 cells.
#[derive(Clone, Copy, Debug, PartialEq, Eq)]
pub struct TooManyCells;

/// A uniform grid: its axes, in order. The cells are numbered from 0, the first state varying
/// slowest.
#[derive(Clone, Copy, PartialEq, Eq)]
pub struct Grid {
    axes: [Axis; STATES_LIMIT],
    counts: [u32; STATES_LIMIT],
    states: u32,
    cells: u32,
}

impl Model for Grid {
    ghost use Rattle.std.specs.Prelude.{List, length, take};
    ghost use Rattle.grid_quantiser.specs.declared.axis.Axis.{Axis};
    ghost use Rattle.grid_quantiser.specs.Axes.{cells_of};
    ghost use Rattle.grid_quantiser.specs.inside.Storage.{six_of, six_counts, IsStored};
    ghost use Rattle.grid_quantiser.specs.inside.Restored.{view_of_inverse};

    ghost Value = { List Axis };

    ghost view = { λ g. take g.states g.axes };

    ghost invariant = { λ g. IsStored g.axes g.counts g.states g.cells };

    ghost inverse = { λ axes. record { axes = six_of axes; counts = six_counts axes; states = length axes; cells = cells_of axes } };

    ghost inverse_ok = { λ g kept. view_of_inverse g kept };
}

impl Grid {
    /// The grid of the axes, one for each state.
    pub fn new(axes: &[Axis]) -> Result<Grid, TooManyCells>
        requires { AreAxes axes.now }
        ensures ok { IfOk result (λ grid. grid ≡ axes.now) }
        ensures refused { IsErr result ↔ (CELLS_LIMIT < cells_of axes.now) }
    {
        let cells = cell_count(axes)?;
        let mut six = [NO_AXIS; STATES_LIMIT];
        six[..axes.len()].copy_from_slice(axes);
        Ok(Grid {
            axes: six,
            counts: counts_in(axes),
            states: axes.len() as u32,
            cells,
        })
    }

    /// How many states.
    #[inline]
    pub fn states(&self) -> u32
        ensures count { result ≡ length self.now }
        ensures axes { AreAxes self.now }
    {
        self.states
    }

    /// How many cells.
    #[inline]
    pub fn cells(&self) -> u32
        ensures count { result ≡ cells_of self.now }
        ensures some { 1 ≤ cells_of self.now }
        ensures limit { cells_of self.now ≤ CELLS_LIMIT }
    {
        self.cells
    }

    /// How far a state of a cell is at most from the centre, along an axis.
    #[inline]
    pub fn radius(&self, axis: u32) -> i128
        requires { axis < length self.now }
        ensures { result ≡ radius_of (axis_at self.now axis) }
    {
        self.axis(axis).radius()
    }

    /// How many numbers a cell has along an axis.
    #[inline]
    pub fn width(&self, axis: u32) -> i128
        requires { axis < length self.now }
        ensures { result ≡ (axis_at self.now axis).width }
    {
        self.axis(axis).width
    }

    /// The middle number of the first index on an axis: the greater of the two along an even width.
    #[inline]
    pub fn first_centre(&self, axis: u32) -> i128
        requires { axis < length self.now }
        ensures { result ≡ middle_of (axis_at self.now axis) 0 }
    {
        self.axis(axis).number(0, CellPoint::Centre)
    }

    #[inline]
    pub(crate) fn axes(&self) -> &[Axis]
        ensures same { result.now ≡ self.now }
        ensures axes { AreAxes result.now }
        ensures limit { cells_of result.now ≤ CELLS_LIMIT }
    {
        &self.axes[..self.states as usize]
    }

    #[inline]
    pub(crate) fn axis(&self, axis: u32) -> &Axis
        requires { axis < length self.now }
        ensures same { result.now ≡ axis_at self.now axis }
        ensures axis { IsAxis result.now }
        ensures few { result.now.count ≤ CELLS_LIMIT }
    {
        &self.axes()[axis as usize]
    }

    /// How many indices each axis has.
    #[inline]
    pub(crate) fn counts(&self) -> &[u32]
        ensures same { result.now ≡ counts_of self.now }
        ensures axes { AreAxes self.now }
        ensures cells { cells_of self.now ≤ CELLS_LIMIT }
        ensures few { length result.now ≤ STATES_LIMIT }
        ensures limit { size result.now ≤ CELLS_LIMIT }
        ensures some { 0 < size result.now }
    {
        &self.counts[..self.states as usize]
    }
}

/// How many indices each of the axes has.
fn counts_in(axes: &[Axis]) -> [u32; STATES_LIMIT]
    requires axes { AreAxes axes.now }
    requires limit { cells_of axes.now ≤ CELLS_LIMIT }
    ensures { result ≡ six_counts axes.now }
{
    let mut counts = [0; STATES_LIMIT];
    for i in 0..axes.len() {
        counts[i] = axes[i].count as u32;
    }
    counts
}

/// How many cells the axes make.
fn cell_count(axes: &[Axis]) -> Result<u32, TooManyCells>
    requires { AreAxes axes.now }
    ensures ok { IfOk result (λ cells. cells ≡ cells_of axes.now) }
    ensures refused { IsErr result ↔ (CELLS_LIMIT < cells_of axes.now) }
{
    let mut cells: u64 = 1;
    for axis in axes {
        if axis.count > CELLS_LIMIT / cells {
            return Err(TooManyCells);
        }
        cells *= axis.count;
    }
    Ok(cells as u32)
}

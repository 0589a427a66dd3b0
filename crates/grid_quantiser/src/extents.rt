ghost use Rattle.std.specs.Prelude.{◌≡◌, ◌<◌, ◌≤◌, ◌↔◌, ℕ, ℤ, List, length, slice_index, IsSome, IfSome};
ghost use Rattle.grid_quantiser.specs.Axes.{axis_at};
ghost use Rattle.grid_quantiser.specs.CellBoxes.{IsBoxInDomain, AreCornersMeeting};
ghost use Rattle.grid_quantiser.specs.Indices.{index_along};
ghost use Rattle.grid_quantiser.specs.Extents.{IsExtentOf, extended_axis, IsShiftable, AreExtentsOf, IsShiftOf};

use crate::boxes::CellBox;
use crate::grid::Grid;
use crate::quantiser::AxisQuantiser;
use base::limits::STATES_LIMIT;
use mixed_radix::decode;

/// Indices of an axis, from the first to the last.
#[derive(Clone, Copy, PartialEq, Eq)]
pub struct Extent {
    pub first: u32,
    pub last: u32,
}

impl Grid {
    /// The indices of the numbers from `low` to `high` on an axis: None where one of the two is outside.
    #[inline]
    pub fn extent(&self, axis: u32, low: i128, high: i128) -> Option<Extent>
        requires { axis < length self.now }
        ensures { IsExtentOf (axis_at self.now axis) low high result }
    {
        let axis = self.axis(axis);
        let first = axis.index_holding(low)? as u32;
        let last = axis.index_holding(high)? as u32;
        Some(Extent { first, last })
    }

    /// The quantiser of an axis extended by its own length below, from whose extents `shifted_extent` goes on.
    pub fn extended_quantiser(&self, axis: u32) -> AxisQuantiser
        requires { axis < length self.now }
        ensures { result ≡ extended_axis (axis_at self.now axis) }
    {
        self.axis(axis).extended_quantiser()
    }

    /// The extent on an axis of what lies so many indices after what has this extent on the extended axis:
    /// None where one of its ends is outside. It is the extent that `extent` gives, without a division.
    #[inline]
    pub fn shifted_extent(&self, axis: u32, extent: Option<Extent>, indices: u32) -> Option<Extent>
        requires axis { axis < length self.now }
        requires indices { indices < (axis_at self.now axis).count }
        requires extent { IsShiftable (axis_at self.now axis) indices extent }
        ensures { IsShiftOf (axis_at self.now axis) indices extent result }
    {
        let count = self.axis(axis).count as u32;
        let extent = extent?;
        let first = extent.first + indices;
        let last = extent.last + indices;
        if first < count || 2 * count <= last {
            return None;
        }
        Some(Extent {
            first: first - count,
            last: last - count,
        })
    }

    /// The box with these extents, one for each state: None where one is missing. It is the box that
    /// `meeting` gives between the ends of any box of states with these extents, without a division.
    #[inline]
    pub fn box_with(&self, extents: &[Option<Extent>; STATES_LIMIT]) -> Option<CellBox>
        requires { (lo : List ℤ) × (hi : List ℤ) × AreExtentsOf self.now lo hi extents.now }
        ensures inside { (lo hi : List ℤ) → AreExtentsOf self.now lo hi extents.now → IsSome result ↔ IsBoxInDomain self.now lo hi }
        ensures corners { (lo hi : List ℤ) → AreExtentsOf self.now lo hi extents.now → IfSome result (λ b. AreCornersMeeting self.now lo hi b.first b.last) }
    {
        let axes = self.axes();
        let mut first: u64 = 0;
        let mut last: u64 = 0;
        for i in 0..axes.len() {
            let extent = extents[i]?;
            first = first * axes[i].count + u64::from(extent.first);
            last = last * axes[i].count + u64::from(extent.last);
        }
        Some(CellBox {
            first: first as u32,
            last: last as u32,
        })
    }

    /// How many indices an axis has.
    #[inline]
    pub fn count(&self, axis: u32) -> u32
        requires { axis < length self.now }
        ensures { result ≡ (axis_at self.now axis).count }
    {
        self.axis(axis).count as u32
    }

    /// The index of a cell along each axis. Past the last axis it is 0.
    #[inline]
    pub fn indices(&self, c: u32) -> [u32; STATES_LIMIT]
        ensures along { (i : ℕ) → i < length self.now → slice_index result i ≡ index_along self.now i c }
        ensures past { (i : ℕ) → length self.now ≤ i → slice_index result i ≡ 0 }
    {
        decode(self.counts(), c)
    }
}

//! `AxisQuantiser`: an axis on which the indices of many numbers are found.
ghost use Rattle.std.specs.Prelude.{◌≡◌, ◌<◌, pos, ◌+ℤ◌, ◌-ℤ◌, ◌≤ℤ◌, SomeIff};
ghost use Rattle.grid_quantiser.specs.Cells.{index_of};
ghost use Rattle.grid_quantiser.specs.Extents.{IsOnAxis, IsExtentOf};
ghost use Rattle.base.specs.Narrow.{IsNarrow};

use crate::extents::Extent;
use base::Divisor;
use std::marker::Model;

/// An axis on which the indices of many numbers are found, each without a division. Seen as the axis.
#[derive(Drop)]
pub struct AxisQuantiser {
    pub(crate) lo: i64,
    pub(crate) end: i64,
    pub(crate) width: Divisor,
}

impl Model for AxisQuantiser {
    ghost use Rattle.grid_quantiser.specs.declared.axis.Axis.{Axis};
    ghost use Rattle.grid_quantiser.specs.inside.AxisQuantisers.{axis_between, HasEnds};

    ghost Value = { Axis };

    ghost view = { λ r. axis_between r.lo r.end r.width };

    ghost invariant = { λ r. HasEnds r.lo r.end r.width };
}

impl AxisQuantiser {
    /// The indices of the numbers from `low` to `high`: None where one of the two is outside.
    #[inline]
    pub fn extent(&self, low: i128, high: i128) -> Option<Extent>
        ensures { IsExtentOf self.now low high result }
    {
        let start = i128::from(self.lo);
        let end = i128::from(self.end);
        if low < start || high < start || end <= low || end <= high {
            return None;
        }
        Some(Extent {
            first: self.index_holding(low as i64),
            last: self.index_holding(high as i64),
        })
    }

    /// The indices of the numbers at most so far from a centre: None where one of them is outside.
    #[inline]
    pub fn extent_around(&self, centre: i128, radius: i128) -> Option<Extent>
        requires { pos 0 ≤ℤ radius }
        ensures { IsExtentOf self.now (centre -ℤ radius) (centre +ℤ radius) result }
    {
        let start = self.lo;
        let end = self.end;
        let centre = narrow(centre)?;
        let radius = narrow(radius)?;
        let low = centre.checked_sub(radius)?;
        let high = centre.checked_add(radius)?;
        if low < start || end <= high {
            return None;
        }
        Some(Extent {
            first: self.index_holding(low),
            last: self.index_holding(high),
        })
    }

    /// The index of a number of the axis.
    #[inline]
    fn index_holding(&self, x: i64) -> u32
        requires { IsOnAxis self.now x }
        ensures index { result ≡ index_of self.now x }
        ensures below { result < self.now.count }
    {
        self.width.quotient((x - self.lo) as u64) as u32
    }
}

/// The same number in 64 bits.
#[inline]
fn narrow(z: i128) -> Option<i64>
    ensures { SomeIff result (IsNarrow z) z }
{
    i64::try_from(z).ok()
}

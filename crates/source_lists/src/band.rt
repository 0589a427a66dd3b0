//! Bands of cells.
ghost use Rattle.std.specs.Prelude.{◌≡◌, ◌+◌, ◌^◌, ◌<◌, ◌≤◌, ◌↔◌, Some, IsTrue, IfSome, IfNone};
ghost use Rattle.std.specs.List.{range_with_len};
ghost use Rattle.source_lists.specs.inside.CellRanges.{Misses};
ghost use Rattle.source_lists.specs.inside.Tallies.{slots_in};

use grid_quantiser::CellBox;

/// Cells that follow one another. The first of them has the slot 0.
#[derive(Clone, Copy)]
pub(crate) struct Band {
    pub(crate) from: u32,
    pub(crate) len: u32,
}

impl Band {
    /// A box, unless its corners show that it has no cell here.
    #[inline]
    pub(crate) fn reached(&self, b: Option<CellBox>) -> Option<CellBox>
        requires { self.now.from + self.now.len < 2 ^ 32 }
        ensures same { IfSome result (λ reached. b ≡ Some reached) }
        ensures none { IfNone result (IfSome b (λ b. Misses self.now.from self.now.len (record { first = b.first; last = b.last }))) }
    {
        let b = b?;
        if b.last < self.from || self.from + self.len <= b.first {
            return None;
        }
        Some(b)
    }

    /// Whether the corners of a box show that all its cells are here.
    #[inline]
    pub(crate) fn holds(&self, b: CellBox) -> bool
        requires { self.now.from + self.now.len < 2 ^ 32 }
        ensures { IsTrue result ↔ ((self.now.from ≤ b.first) × (b.last < self.now.from + self.now.len)) }
    {
        self.from <= b.first && b.last < self.from + self.len
    }

    /// The slots that a segment of cells has here: the first, and how many.
    #[inline]
    pub(crate) fn clip(&self, first: u32, len: u32) -> (u32, u32)
        requires segment { first + len < 2 ^ 32 }
        requires band { self.now.from + self.now.len < 2 ^ 32 }
        ensures within { result.0 + result.1 ≤ self.now.len }
        ensures slots { slots_in self.now.from self.now.len (range_with_len first len) ≡ range_with_len result.0 result.1 }
    {
        let low = first.max(self.from);
        let high = (first + len).min(self.from + self.len);
        if high <= low {
            return (0, 0);
        }
        (low - self.from, high - low)
    }
}

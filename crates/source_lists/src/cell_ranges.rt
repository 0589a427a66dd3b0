//! Between which cells the boxes of neighbouring pairs lie: a band skips pairs that lead to none of its cells.
ghost use Rattle.std.specs.Prelude.{◌+◌, ◌^◌, ◌<◌, ◌≤◌, length, IsTrue, IfOk};
ghost use Rattle.source_lists.specs.inside.CellRanges.{Misses, IsRangeOf, AreRangesOf};
ghost use Rattle.base.specs.declared.limits.TheConstants.{PAIRS_LIMIT};

use crate::band::Band;
use pair_box::PairBox;
use rayon::prelude::*;
use std::alloc::{AllocError, Global};
use std::thread::Threads;

/// So many neighbouring pairs have one range.
pub(crate) const PAIRS_FOR_A_RANGE: usize = 256;

/// So many ranges for each part at least: to start a thread takes as long as to find some dozens of them.
const RANGES_FOR_A_PART: usize = 256;

/// The cells from one to another: none where the first is past the last.
#[derive(Clone, Copy)]
pub(crate) struct CellRange {
    pub(crate) first: u32,
    pub(crate) last: u32,
}

impl CellRange {
    /// Whether no cell of a band is here.
    pub(crate) fn misses(&self, band: Band) -> bool
        requires { band.from + band.len < 2 ^ 32 }
        ensures { IsTrue result → Misses band.from band.len self.now }
    {
        self.last < band.from || band.from + band.len <= self.first
    }
}

/// The ranges of the boxes, to fill so many bands by. They are found side by side.
pub(crate) fn build_ranges<R: Threads + Sync>(
    rt: &R,
    alloc: Global,
    boxes: &[PairBox],
    bands: u32,
) -> Result<Vec<CellRange>, AllocError>
    requires { length boxes.now ≤ PAIRS_LIMIT }
    ensures { IfOk result (λ ranges. AreRangesOf boxes.now ranges.items) }
{
    (0..range_count(boxes.len(), bands))
        .into_par_iter()
        .with_min_len(RANGES_FOR_A_PART)
        .map(
            |k: u32| -> CellRange
                ensures { IsRangeOf boxes.entry.now k result }
            { range_of(boxes, k) },
        )
        .collect::<Vec<CellRange>>(rt, alloc)
}

/// How many ranges there are: none for a single band, which all boxes reach.
fn range_count(pairs: usize, bands: u32) -> u32
    requires { pairs ≤ PAIRS_LIMIT }
{
    if bands == 1 {
        return 0;
    }
    pairs.div_ceil(PAIRS_FOR_A_RANGE) as u32
}

/// The least range of the boxes of the pairs that have the range of a number.
fn range_of(boxes: &[PairBox], k: u32) -> CellRange
    ensures { IsRangeOf boxes.now k result }
{
    let from = k as usize * PAIRS_FOR_A_RANGE;
    let end = boxes.len().min(from + PAIRS_FOR_A_RANGE);
    let mut first = u32::MAX;
    let mut last = 0;
    for pair in from..end {
        if let Some(b) = boxes[pair].get() {
            first = first.min(b.first);
            last = last.max(b.last);
        }
    }
    CellRange { first, last }
}

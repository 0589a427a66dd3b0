//! The pairs that lead to each cell of a band.
ghost use Rattle.std.specs.Prelude.{◌≡◌, ◌+◌, ◌^◌, ◌<◌, ◌≤◌, length, IsTrue, IfOk, IfSome};
ghost use Rattle.std.specs.List.{All, range_with_len};
ghost use Rattle.grid_quantiser.specs.Axes.{cells_of, AreAxes};
ghost use Rattle.successor_box.specs.SuccessorBoxes.{cells_in};
ghost use Rattle.source_lists.specs.inside.CellRanges.{Misses, range_at, AreRangesOf};
ghost use Rattle.source_lists.specs.Shapes.{cells_from, EndsBy, HasSegmentsOf, EachBoxHasSegments};
ghost use Rattle.plant_game.specs.BoxGame.{IsBox, edges_of};
ghost use Rattle.source_lists.specs.inside.BandRows.{AreBandRows};
ghost use Rattle.source_lists.specs.inside.Intakes.{AreAdded, HasRoomForEach};
ghost use Rattle.source_lists.specs.inside.Tallies.{slots_in, slots_of};
ghost use Rattle.base.specs.declared.limits.TheConstants.{CELLS_LIMIT, EDGES_LIMIT, PAIRS_LIMIT};

use crate::band::Band;
use crate::cell_ranges::{CellRange, PAIRS_FOR_A_RANGE};
use crate::intake::{Counts, Intake};
use crate::shapes::{Segment, Shapes};
use edge_rows::{NoMemory, RowFill, Rows};
use grid_quantiser::{CellBox, Grid};
use pair_box::PairBox;
use std::alloc::Global;

/// The pairs that lead to each cell of a band, in rising order.
pub(crate) fn fill_band(
    alloc: Global,
    grid: &Grid,
    shapes: &Shapes,
    boxes: &[PairBox],
    ranges: &[CellRange],
    band: Band,
) -> Result<Rows, NoMemory>
    requires grid { AreAxes grid.now }
    requires limit { cells_of grid.now ≤ CELLS_LIMIT }
    requires ordered { All (IsBox grid.now) boxes.now }
    requires segments { EachBoxHasSegments grid.now shapes.now boxes.now }
    requires ranges { AreRangesOf boxes.now ranges.now }
    requires pairs { length boxes.now ≤ PAIRS_LIMIT }
    requires edges { edges_of grid.now boxes.now ≤ EDGES_LIMIT }
    requires within { band.from + band.len ≤ cells_of grid.now }
    ensures { IfOk result (λ rows. AreBandRows grid.now boxes.now band.from band.len rows) }
{
    let each = vec![in alloc; 0; band.len as usize]?;
    let mut counts = Counts { each };
    add_pairs(grid, shapes, boxes, ranges, band, &mut counts);
    let mut fill = RowFill::new(alloc, &counts.each)?;
    add_pairs(grid, shapes, boxes, ranges, band, &mut fill);
    Ok(fill.finish())
}

/// Adds each pair, in rising order, at the slots of its box in a band.
#[inline]
fn add_pairs<I: Intake>(
    grid: &Grid,
    shapes: &Shapes,
    boxes: &[PairBox],
    ranges: &[CellRange],
    band: Band,
    intake: &mut I,
)
    requires grid { AreAxes grid.now }
    requires limit { cells_of grid.now ≤ CELLS_LIMIT }
    requires ordered { All (IsBox grid.now) boxes.now }
    requires segments { EachBoxHasSegments grid.now shapes.now boxes.now }
    requires ranges { AreRangesOf boxes.now ranges.now }
    requires pairs { length boxes.now ≤ PAIRS_LIMIT }
    requires within { band.from + band.len ≤ cells_of grid.now }
    requires one_each { I.slots intake.old ≡ band.len }
    requires room { HasRoomForEach I.HasRoomFor I.IsAdded (slots_of grid.now boxes.now band.from band.len) (length boxes.now) intake.old }
    ensures { AreAdded I.IsAdded (slots_of grid.now boxes.now band.from band.len) (length boxes.now) intake.old intake.new }
{
    for k in 0..boxes.len().div_ceil(PAIRS_FOR_A_RANGE) {
        if is_skipped(ranges, k, band) {
            continue;
        }
        let from = k * PAIRS_FOR_A_RANGE;
        let end = boxes.len().min(from + PAIRS_FOR_A_RANGE);
        for pair in from..end {
            add_box(grid, shapes, boxes[pair].get(), band, pair as u32, intake);
        }
    }
}

/// Whether the range of a number is known to miss a band.
fn is_skipped(ranges: &[CellRange], k: usize, band: Band) -> bool
    requires { band.from + band.len < 2 ^ 32 }
    ensures known { IsTrue result → k < length ranges.now }
    ensures outside { IsTrue result → Misses band.from band.len (range_at ranges.now k) }
{
    k < ranges.len() && ranges[k].misses(band)
}

/// Adds a pair at each slot of its box in a band.
#[inline]
fn add_box<I: Intake>(
    grid: &Grid,
    shapes: &Shapes,
    b: Option<CellBox>,
    band: Band,
    pair: u32,
    intake: &mut I,
)
    requires grid { AreAxes grid.now }
    requires limit { cells_of grid.now ≤ CELLS_LIMIT }
    requires ordered { IsBox grid.now b }
    requires segments { IfSome b (HasSegmentsOf grid.now shapes.now) }
    requires within { band.from + band.len ≤ cells_of grid.now }
    requires one_each { I.slots intake.old ≡ band.len }
    requires room { I.HasRoomFor intake.old (slots_in band.from band.len (cells_in grid.now b)) }
    ensures { I.IsAdded pair intake.old intake.new (slots_in band.from band.len (cells_in grid.now b)) }
{
    if let Some(b) = band.reached(b) {
        let segments = shapes.segments_of(b);
        if band.holds(b) {
            add_inside(b.first - band.from, segments, pair, intake);
        } else {
            add_segments(b.first, segments, band, pair, intake);
        }
    }
}

/// Adds a pair at each slot of segments that begin at a slot. The case is chosen once a box, by its first segment: a loop
/// over few cells costs more than what it does.
#[inline]
fn add_inside<I: Intake>(first: u32, segments: &[Segment], pair: u32, intake: &mut I)
    requires within { All (EndsBy (I.slots intake.old) first) segments.now }
    requires few { I.slots intake.old < 2 ^ 32 }
    requires room { I.HasRoomFor intake.old (cells_from first segments.now) }
    ensures { I.IsAdded pair intake.old intake.new (cells_from first segments.now) }
{
    match first_len(segments) {
        1 => add_alike::<1, I>(first, segments, pair, intake),
        2 => add_alike::<2, I>(first, segments, pair, intake),
        3 => add_alike::<3, I>(first, segments, pair, intake),
        4 => add_alike::<4, I>(first, segments, pair, intake),
        _ => add_alike::<0, I>(first, segments, pair, intake),
    }
}

/// Adds a pair at each slot of segments that begin at a slot, of segments of `LEN` cells with no loop.
#[inline]
fn add_alike<const LEN: u32, I: Intake>(first: u32, segments: &[Segment], pair: u32, intake: &mut I)
    requires within { All (EndsBy (I.slots intake.old) first) segments.now }
    requires few { I.slots intake.old < 2 ^ 32 }
    requires room { I.HasRoomFor intake.old (cells_from first segments.now) }
    ensures { I.IsAdded pair intake.old intake.new (cells_from first segments.now) }
{
    for segment in segments {
        add_segment::<LEN, I>(first + segment.start, segment.len, pair, intake);
    }
}

/// Adds a pair at each of these slots, with no loop where they are `LEN`.
#[inline]
fn add_segment<const LEN: u32, I: Intake>(first: u32, len: u32, pair: u32, intake: &mut I)
    requires within { first + len ≤ I.slots intake.old }
    requires room { I.HasRoomFor intake.old (range_with_len first len) }
    ensures { I.IsAdded pair intake.old intake.new (range_with_len first len) }
{
    if len == LEN {
        // So many slots are known here, and the compiler makes no loop of them.
        intake.add(first, LEN, pair);
    } else {
        intake.add(first, len, pair);
    }
}

/// Adds a pair at each slot of the cells of segments in a band.
#[inline]
fn add_segments<I: Intake>(first: u32, segments: &[Segment], band: Band, pair: u32, intake: &mut I)
    requires within { All (EndsBy CELLS_LIMIT first) segments.now }
    requires limit { band.from + band.len ≤ CELLS_LIMIT }
    requires one_each { I.slots intake.old ≡ band.len }
    requires room { I.HasRoomFor intake.old (slots_in band.from band.len (cells_from first segments.now)) }
    ensures { I.IsAdded pair intake.old intake.new (slots_in band.from band.len (cells_from first segments.now)) }
{
    for segment in segments {
        let (slot, len) = band.clip(first + segment.start, segment.len);
        intake.add(slot, len, pair);
    }
}

/// How many cells the first of some segments has.
#[inline]
fn first_len(segments: &[Segment]) -> u32 {
    match segments {
        [segment, ..] => segment.len,
        [] => 0,
    }
}

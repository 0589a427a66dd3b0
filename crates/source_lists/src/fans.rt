//! How many cells boxes have.
ghost use Rattle.std.specs.Prelude.{◌≡◌, ◌+◌, ◌-◌, ◌*◌, ◌^◌, max, ◌<◌, ◌≤◌, [], length, slice_index, sum, Some, IfOk, IfSome};
ghost use Rattle.std.specs.List.{All};
ghost use Rattle.grid_quantiser.specs.Axes.{cells_of, AreAxes};
ghost use Rattle.successor_box.specs.SuccessorBoxes.{cells_in};
ghost use Rattle.source_lists.specs.Fans.{counts_of, edges_counted, fan_of, IsCounted, ShapeIsCounted, AreShapes, AreFansOf};
ghost use Rattle.source_lists.specs.inside.FanCounts.{Reaches, KeepsFans, AreSameBut, AreMerged, CountBoxes};
ghost use Rattle.plant_game.specs.BoxGame.{IsBox, edges_of};
ghost use Rattle.source_lists.specs.declared.fans.TheConstants.{BOXES_FOR_A_PART, PARTS_LIMIT};
ghost use Rattle.base.specs.declared.limits.TheConstants.{CELLS_LIMIT, PAIRS_LIMIT};

use grid_quantiser::{CellBox, Grid};
use pair_box::PairBox;
use rayon::current_num_threads;
use std::alloc::{AllocError, Global};
use std::thread::{Threads, map_chunks};

/// So many boxes for each part at least: to start a thread takes as long as to count some thousands of them.
const BOXES_FOR_A_PART: usize = 1 << 16;

/// The most parts. The counts of each take memory of their own.
const PARTS_LIMIT: usize = 8;

/// How many cells the boxes of each shape have. A box is its shape, shifted by its first cell, and how
/// far its last cell is from its first gives the shape.
#[derive(Drop)]
pub struct Fans {
    /// One for each such distance up to the greatest, 0 where no box has it.
    pub(crate) counts: Vec<u32>,
    /// Of all boxes together.
    pub(crate) edges: u64,
}

impl Fans {
    /// Before the first box is counted, with memory for the shapes of a grid of so many cells.
    pub(crate) fn none(alloc: Global, cells: u32) -> Result<Fans, AllocError>
        ensures counts { IfOk result (λ fans. fans.counts.items ≡ []) }
        ensures edges { IfOk result (λ fans. fans.edges ≡ 0) }
    {
        Ok(Fans {
            counts: Vec::with_capacity(alloc, cells as usize)?,
            edges: 0,
        })
    }

    /// How many cells all boxes have.
    pub fn edges(&self) -> u64
        ensures { result ≡ edges_counted self.now }
    {
        self.edges
    }

    /// How many cells a box has.
    #[inline]
    pub fn fan_of_box(&self, b: Option<CellBox>) -> u32
        requires ordered { IfSome b (λ b. b.first ≤ b.last) }
        requires within { IfSome b (λ b. b.last - b.first < length (counts_of self.now)) }
        ensures { result ≡ fan_of (counts_of self.now) b }
    {
        match b {
            Some(b) => self.counts[(b.last - b.first) as usize],
            None => 0,
        }
    }

    /// How many cells a box has, where those of its shape are counted.
    #[inline]
    pub(crate) fn known(&self, b: CellBox) -> Option<u32>
        requires ordered { b.first ≤ b.last }
        ensures some { IfSome result (λ cells. 1 ≤ cells) }
        ensures count { IfSome result (λ cells. cells ≡ slice_index self.now.counts.items (b.last - b.first)) }
    {
        match self.counts.get((b.last - b.first) as usize) {
            Some(cells) if *cells > 0 => Some(*cells),
            _ => None,
        }
    }

    /// Counts the cells of a box, where those of its shape aren't counted yet.
    #[inline]
    fn count(&mut self, grid: &Grid, b: Option<CellBox>) -> Result<u32, AllocError>
        requires grid { AreAxes grid.now }
        requires limit { cells_of grid.now ≤ CELLS_LIMIT }
        requires ordered { IsBox grid.now b }
        requires distances { length self.old.counts.items ≤ cells_of grid.now }
        requires shapes { AreShapes grid.now self.old.counts.items }
        ensures distances { IfOk result (λ _. length self.new.counts.items ≤ cells_of grid.now) }
        ensures kept { IfOk result (λ _. KeepsFans grid.now self.old.counts.items self.new.counts.items) }
        ensures counted { IfOk result (λ _. ShapeIsCounted grid.now self.new.counts.items b) }
        ensures cells { IfOk result (λ cells. cells ≡ length (cells_in grid.now b)) }
        ensures few { IfOk result (λ cells. sum self.new.counts.items ≤ sum self.old.counts.items + cells) }
    {
        let Some(b) = b else {
            return Ok(0);
        };
        match self.known(b) {
            Some(cells) => Ok(cells),
            None => self.count_shape(grid, b),
        }
    }

    /// Counts the cells of the shape of a box.
    #[cold]
    pub(crate) fn count_shape(&mut self, grid: &Grid, b: CellBox) -> Result<u32, AllocError>
        requires grid { AreAxes grid.now }
        requires limit { cells_of grid.now ≤ CELLS_LIMIT }
        requires ordered { IsBox grid.now (Some b) }
        requires distances { length self.old.counts.items ≤ cells_of grid.now }
        requires shapes { AreShapes grid.now self.old.counts.items }
        ensures distances { IfOk result (λ _. length self.new.counts.items ≤ cells_of grid.now) }
        ensures kept { IfOk result (λ _. KeepsFans grid.now self.old.counts.items self.new.counts.items) }
        ensures counted { IfOk result (λ _. IsCounted grid.now self.new.counts.items (b.last - b.first)) }
        ensures others { IfOk result (λ _. AreSameBut (b.last - b.first) self.old.counts.items self.new.counts.items) }
        ensures cells { IfOk result (λ cells. cells ≡ length (cells_in grid.now (Some b))) }
        ensures few { IfOk result (λ cells. sum self.new.counts.items ≤ sum self.old.counts.items + cells) }
    {
        let distance = (b.last - b.first) as usize;
        make_room(&mut self.counts, distance, 0)?;
        let cells = grid.box_count(b) as u32;
        self.counts[distance] = cells;
        Ok(cells)
    }

    /// Takes the counts of other boxes as well.
    fn merge(&mut self, other: &Fans) -> Result<(), AllocError>
        requires edges { self.old.edges + other.now.edges < 2 ^ 64 }
        ensures counts { IfOk result (λ _. AreMerged self.old.counts.items other.now.counts.items self.new.counts.items) }
        ensures edges { IfOk result (λ _. self.new.edges ≡ self.old.edges + other.now.edges) }
    {
        let len = self.counts.len().max(other.counts.len());
        self.counts.resize(len, 0)?;
        fill_zeros(&mut self.counts, &other.counts);
        self.edges += other.edges;
        Ok(())
    }
}

/// How many cells the boxes of each shape have, and all boxes together. Parts of many boxes are counted
/// side by side.
pub fn count_fans<R: Threads + Sync>(
    rt: &R,
    alloc: Global,
    grid: &Grid,
    boxes: &[PairBox],
) -> Result<Fans, AllocError>
    requires grid { AreAxes grid.now }
    requires ordered { All (IsBox grid.now) boxes.now }
    requires limit { length boxes.now ≤ PAIRS_LIMIT }
    ensures fans { IfOk result (λ fans. AreFansOf grid.now boxes.now (counts_of fans)) }
    ensures edges { IfOk result (λ fans. edges_counted fans ≡ edges_of grid.now boxes.now) }
{
    let parts = part_count(rt, boxes.len());
    if parts == 1 {
        return count_part(alloc, grid, boxes);
    }
    let count = |_: usize, part: &[PairBox]| -> Result<Fans, AllocError>
        requires grid { AreAxes grid.now }
        requires ordered { All (IsBox grid.now) part.now }
        requires limit { length part.now ≤ PAIRS_LIMIT }
        ensures { IfOk result (λ fans. CountBoxes grid.entry.now part.entry.now fans.counts.items fans.edges) }
    { count_part(alloc, grid, part) };
    let size = boxes.len().div_ceil(parts);
    let counted = map_chunks(rt, alloc, boxes, size, &count)?;
    let mut fans = Fans::none(alloc, grid.cells())?;
    for part in &counted {
        match part {
            Ok(part) => fans.merge(part)?,
            Err(error) => return Err(*error),
        }
    }
    Ok(fans)
}

/// How many parts of the boxes are counted side by side: one for each processor, unless there are few boxes.
fn part_count<R: Threads>(rt: &R, boxes: usize) -> usize
    ensures some { 1 ≤ result }
    ensures few { result ≤ PARTS_LIMIT }
    ensures full { result * BOXES_FOR_A_PART ≤ max boxes BOXES_FOR_A_PART }
{
    let most = boxes / BOXES_FOR_A_PART;
    if most <= 1 {
        // One part needs no number of processors, for which the system's files are read.
        return 1;
    }
    most.min(current_num_threads(rt)).clamp(1, PARTS_LIMIT)
}

/// How many cells the boxes of each shape have, and all boxes together. They are counted by one thread.
fn count_part(alloc: Global, grid: &Grid, boxes: &[PairBox]) -> Result<Fans, AllocError>
    requires grid { AreAxes grid.now }
    requires ordered { All (IsBox grid.now) boxes.now }
    requires limit { length boxes.now ≤ PAIRS_LIMIT }
    ensures fans { IfOk result (λ fans. AreFansOf grid.now boxes.now fans.counts.items) }
    ensures edges { IfOk result (λ fans. fans.edges ≡ edges_of grid.now boxes.now) }
{
    let mut fans = Fans::none(alloc, grid.cells())?;
    let mut edges: u64 = 0;
    for b in boxes {
        let cells = fans.count(grid, b.get())?;
        edges += u64::from(cells);
    }
    fans.edges = edges;
    Ok(fans)
}

/// Makes the item of a distance, an empty one if it is new. Those up to the greatest distance of a box are kept, and no
/// memory past them is touched.
pub(crate) fn make_room<T: Copy>(
    items: &mut Vec<T>,
    distance: usize,
    empty: T,
) -> Result<(), AllocError>
    requires { distance < CELLS_LIMIT }
    ensures { IfOk result (λ _. Reaches empty distance items.old.items items.new.items) }
{
    if distance >= items.len() {
        items.resize(distance + 1, empty)?;
    }
    Ok(())
}

/// Where there is no count, there is the one that was found, if there is one.
fn fill_zeros(known: &mut [u32], found: &[u32])
    requires { length found.now ≤ length known.old }
    ensures { AreMerged known.old found.now known.new }
{
    for distance in 0..found.len() {
        if known[distance] == 0 {
            known[distance] = found[distance];
        }
    }
}

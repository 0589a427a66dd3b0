//! Where bands of cells begin, such that each takes about as long to fill as the others.
ghost use Rattle.std.specs.Prelude.{◌≡◌, ◌+◌, ◌*◌, ◌^◌, ◌<◌, ◌≤◌, length, IfOk, IfSome};
ghost use Rattle.std.specs.Int.{div_ceil};
ghost use Rattle.std.specs.List.{All};
ghost use Rattle.source_lists.specs.declared.cuts.TheConstants.{BANDS_LIMIT};
ghost use Rattle.source_lists.specs.inside.BandCuts.{RiseTo, AreCutsOf, HasLoadIn, AreGroupsTo, band_start, band_end};
ghost use Rattle.base.specs.declared.limits.TheConstants.{CELLS_LIMIT};

use crate::band::Band;
use crate::fans::Fans;
use grid_quantiser::CellBox;
use pair_box::PairBox;
use rayon::current_num_threads;
use std::alloc::{AllocError, Global};
use std::thread::Threads;

/// The most bands: each goes over all boxes that it can't skip.
const BANDS_LIMIT: u64 = 32;

/// So many pairs for each band at least: to start a thread takes as long as to go over some thousands
/// of them, and of bands of fewer pairs one alone is sooner filled.
const PAIRS_FOR_A_BAND: u64 = 10_000;

/// Boxes of so many cells each are wide: to go over them all costs nothing beside their cells.
const WIDE_FAN: u64 = 64;

/// So many edges for each band at least, where boxes are wide.
const EDGES_FOR_A_BAND: u64 = 100_000;

/// The most groups of cells: so many, each of 8 bytes, stay in fast memory.
const GROUPS_LIMIT: u32 = 2048;

/// Of so many pairs one stands for all. A factor of the number of inputs would leave inputs out, and a prime seldom is one.
const PAIRS_FOR_A_SAMPLE: usize = 61;

/// What it costs to go over a box, in edges.
const BOX_LOAD: u64 = 4;

/// Where bands of cells begin. Cells are in groups, and a band has whole groups.
#[derive(Drop)]
pub(crate) struct Cuts {
    /// How many cells a group has, but the last, which has what is left.
    pub(crate) size: u32,
    /// The first group of each band, and then how many groups there are.
    pub(crate) each: Vec<u32>,
}

/// The band in which the cells of a group lie, and the first cell of that band.
#[derive(Clone, Copy)]
pub(crate) struct Group {
    pub band: u32,
    pub from: u32,
}

impl Cuts {
    /// How many bands there are.
    pub(crate) fn bands(&self) -> u32
        requires some { 1 ≤ length self.now.each.items }
        requires few { length self.now.each.items ≤ BANDS_LIMIT + 1 }
        ensures { result + 1 ≡ length self.now.each.items }
    {
        (self.each.len() - 1) as u32
    }

    /// The cells of a band.
    pub(crate) fn band(&self, cells: u32, k: u32) -> Band
        requires cuts { AreCutsOf cells self.now }
        requires limit { cells ≤ CELLS_LIMIT }
        requires band { k + 1 < length self.now.each.items }
        ensures start { result.from ≡ band_start self.now k }
        ensures end { result.from + result.len ≡ band_end cells self.now k }
    {
        let from = self.each[k as usize] * self.size;
        let end = (self.each[k as usize + 1] * self.size).min(cells);
        Band {
            from,
            len: end - from,
        }
    }

    /// Each group's band.
    pub(crate) fn groups(&self, alloc: Global, cells: u32) -> Result<Vec<Group>, AllocError>
        requires cuts { AreCutsOf cells self.now }
        requires limit { cells ≤ CELLS_LIMIT }
        requires few { length self.now.each.items ≤ BANDS_LIMIT + 1 }
        ensures { IfOk result (λ groups. AreGroupsTo (div_ceil cells self.now.size) self.now groups.items) }
    {
        let mut groups = Vec::new(alloc);
        for band in 0..self.bands() {
            let from = self.each[band as usize] * self.size;
            groups.resize(self.each[band as usize + 1] as usize, Group { band, from })?;
        }
        Ok(groups)
    }
}

/// Cuts for bands that take about as long to fill, each as the others.
pub(crate) fn build_cuts<R: Threads>(
    rt: &R,
    alloc: Global,
    cells: u32,
    boxes: &[PairBox],
    fans: &Fans,
) -> Result<Cuts, AllocError>
    requires some { 1 ≤ cells }
    requires limit { cells ≤ CELLS_LIMIT }
    requires loads { All (λ b. IfSome b (HasLoadIn fans.now.counts.items cells)) boxes.now }
    ensures cuts { IfOk result (AreCutsOf cells) }
    ensures few { IfOk result (λ cuts. length cuts.each.items ≤ BANDS_LIMIT + 1) }
{
    let size = cells.div_ceil(GROUPS_LIMIT);
    let groups = cells.div_ceil(size);
    let bands = band_count(rt, boxes.len(), fans.edges);
    let each = if bands == 1 {
        vec![in alloc; 0, groups]?
    } else {
        let loads = count_loads(alloc, size, groups, boxes, fans)?;
        cuts_for(alloc, &loads, bands)?
    };
    Ok(Cuts { size, each })
}

/// How many bands there are at most. There is one for each processor, unless there are few pairs. Where boxes are wide
/// there are more, so that the ends of a band's rows stay in fast memory.
fn band_count<R: Threads>(rt: &R, pairs: usize, edges: u64) -> u64
    ensures some { 1 ≤ result }
    ensures few { result ≤ BANDS_LIMIT }
{
    let pairs = pairs as u64;
    if edges / WIDE_FAN >= pairs {
        return within_limit(edges / EDGES_FOR_A_BAND);
    }
    let most = pairs / PAIRS_FOR_A_BAND;
    if most <= 1 {
        // One band needs no number of processors, for which the system's files are read.
        return 1;
    }
    within_limit(most.min(current_num_threads(rt) as u64))
}

/// So many bands, but one at least, and no more than the limit.
fn within_limit(bands: u64) -> u64
    ensures some { 1 ≤ result }
    ensures few { result ≤ BANDS_LIMIT }
{
    bands.clamp(1, BANDS_LIMIT)
}

/// What the boxes of some pairs load on each group.
fn count_loads(
    alloc: Global,
    size: u32,
    groups: u32,
    boxes: &[PairBox],
    fans: &Fans,
) -> Result<Vec<u64>, AllocError>
    requires size { 0 < size }
    requires loads { All (λ b. IfSome b (HasLoadIn fans.now.counts.items (groups * size))) boxes.now }
    ensures { IfOk result (λ loads. length loads.items ≡ groups) }
{
    let mut loads = vec![in alloc; 0; groups as usize]?;
    for sample in 0..boxes.len() / PAIRS_FOR_A_SAMPLE {
        add_load(
            size,
            boxes[sample * PAIRS_FOR_A_SAMPLE].get(),
            fans,
            &mut loads,
        );
    }
    Ok(loads)
}

/// Adds the work for a box to the group of the cell halfway along it.
fn add_load(size: u32, b: Option<CellBox>, fans: &Fans, loads: &mut [u64])
    requires size { 0 < size }
    requires load { IfSome b (HasLoadIn fans.now.counts.items (length loads.old * size)) }
{
    if let Some(b) = b {
        let halfway = b.first + (b.last - b.first) / 2;
        let group = (halfway / size) as usize;
        let load = u64::from(fans.fan_of_box(Some(b))) + BOX_LOAD;
        loads[group] = loads[group].saturating_add(load);
    }
}

/// Cuts between groups, such that the bands have about equal loads: one stands before a group where the loads so far
/// reach the next share of all.
fn cuts_for(alloc: Global, loads: &[u64], bands: u64) -> Result<Vec<u32>, AllocError>
    requires groups { 1 ≤ length loads.now }
    requires limit { length loads.now < 2 ^ 32 }
    requires bands { 1 ≤ bands }
    ensures cuts { IfOk result (λ cuts. RiseTo (length loads.now) cuts.items) }
    ensures few { IfOk result (λ cuts. length cuts.items ≤ bands + 1) }
{
    let share = (sum_of(loads) / bands).max(1);
    let mut cuts = vec![in alloc; 0]?;
    let mut sum: u64 = 0;
    for group in 1..loads.len() {
        sum = sum.saturating_add(loads[group - 1]);
        if cuts.len() as u64 <= (sum / share).min(bands - 1) {
            cuts.push(group as u32)?;
        }
    }
    cuts.push(loads.len() as u32)?;
    Ok(cuts)
}

/// All loads together.
fn sum_of(loads: &[u64]) -> u64 {
    let mut sum: u64 = 0;
    for load in loads {
        sum = sum.saturating_add(*load);
    }
    sum
}

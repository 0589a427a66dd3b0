//! The pairs that lead to each cell.
ghost use Rattle.std.specs.Prelude.{◌≡◌, ◌+◌, ◌<◌, ◌≤◌, length, IfOk};
ghost use Rattle.std.specs.List.{All};
ghost use Rattle.grid_quantiser.specs.Axes.{cells_of, AreAxes};
ghost use Rattle.source_lists.specs.declared.cuts.TheConstants.{BANDS_LIMIT};
ghost use Rattle.source_lists.specs.inside.BandCuts.{AreCutsOf};
ghost use Rattle.source_lists.specs.inside.CellRanges.{AreRangesOf};
ghost use Rattle.source_lists.specs.Fans.{counts_of, AreFansOf};
ghost use Rattle.source_lists.specs.Shapes.{EachBoxHasSegments};
ghost use Rattle.plant_game.specs.BoxGame.{IsBox, edges_of};
ghost use Rattle.source_lists.specs.SourceLists.{AreSourcesOf, HasRowFor, row_for};
ghost use Rattle.source_lists.specs.inside.BandRows.{HasBandRows, HoldBands};
ghost use Rattle.base.specs.declared.limits.TheConstants.{CELLS_LIMIT, EDGES_LIMIT, PAIRS_LIMIT};

use crate::band_filling::fill_band;
use crate::cell_ranges::{CellRange, build_ranges};
use crate::cuts::{Cuts, Group, build_cuts};
use crate::fans::Fans;
use crate::shapes::Shapes;
use edge_rows::{NoMemory, Rows};
use grid_quantiser::Grid;
use pair_box::PairBox;
use rayon::prelude::*;
use std::alloc::Global;
use std::thread::Threads;

/// The pairs that lead to each cell, in bands of whole groups of `size` cells.
#[derive(Drop)]
pub struct Sources {
    pub(crate) size: u32,
    pub(crate) groups: Vec<Group>,
    pub(crate) bands: Vec<Rows>,
}

impl Sources {
    /// The pairs that lead to a cell, in rising order.
    pub fn row(&self, c: u32) -> &[u32]
        requires { HasRowFor self.now c }
        ensures { result.now ≡ row_for self.now c }
    {
        let group = self.groups[(c / self.size) as usize];
        self.bands[group.band as usize].row(c - group.from)
    }
}

/// The pairs that lead to each cell.
pub fn build_sources<R: Threads + Sync>(
    rt: &R,
    alloc: Global,
    grid: &Grid,
    boxes: &[PairBox],
    fans: &Fans,
    shapes: &Shapes,
) -> Result<Sources, NoMemory>
    requires grid { AreAxes grid.now }
    requires ordered { All (IsBox grid.now) boxes.now }
    requires counted { AreFansOf grid.now boxes.now (counts_of fans.now) }
    requires segments { EachBoxHasSegments grid.now shapes.now boxes.now }
    requires pairs { length boxes.now ≤ PAIRS_LIMIT }
    requires edges { edges_of grid.now boxes.now ≤ EDGES_LIMIT }
    ensures { IfOk result (AreSourcesOf grid.now boxes.now) }
{
    let cuts = build_cuts(rt, alloc, grid.cells(), boxes, fans)?;
    let groups = cuts.groups(alloc, grid.cells())?;
    let ranges = build_ranges(rt, alloc, boxes, cuts.bands())?;
    let bands = fill_bands(rt, alloc, grid, boxes, &ranges, shapes, &cuts)?;
    Ok(Sources {
        size: cuts.size,
        groups,
        bands,
    })
}

/// The rows of all bands, which are filled side by side, each by one thread.
fn fill_bands<R: Threads + Sync>(
    rt: &R,
    alloc: Global,
    grid: &Grid,
    boxes: &[PairBox],
    ranges: &[CellRange],
    shapes: &Shapes,
    cuts: &Cuts,
) -> Result<Vec<Rows>, NoMemory>
    requires grid { AreAxes grid.now }
    requires limit { cells_of grid.now ≤ CELLS_LIMIT }
    requires ordered { All (IsBox grid.now) boxes.now }
    requires segments { EachBoxHasSegments grid.now shapes.now boxes.now }
    requires ranges { AreRangesOf boxes.now ranges.now }
    requires pairs { length boxes.now ≤ PAIRS_LIMIT }
    requires edges { edges_of grid.now boxes.now ≤ EDGES_LIMIT }
    requires cuts { AreCutsOf (cells_of grid.now) cuts.now }
    requires few { length cuts.now.each.items ≤ BANDS_LIMIT + 1 }
    ensures { IfOk result (λ bands. HoldBands grid.now boxes.now cuts.now bands.items) }
{
    (0..cuts.bands())
        .into_par_iter()
        .with_min_len(1)
        .map(
            |k: u32| -> Result<Rows, NoMemory>
                requires grid { AreAxes grid.now }
                requires limit { cells_of grid.now ≤ CELLS_LIMIT }
                requires ordered { All (IsBox grid.now) boxes.now }
                requires segments { EachBoxHasSegments grid.now shapes.now boxes.now }
                requires ranges { AreRangesOf boxes.now ranges.now }
                requires pairs { length boxes.now ≤ PAIRS_LIMIT }
                requires edges { edges_of grid.now boxes.now ≤ EDGES_LIMIT }
                requires cuts { AreCutsOf (cells_of grid.now) cuts.now }
                requires band { k + 1 < length cuts.now.each.items }
                ensures { IfOk result (HasBandRows grid.entry.now boxes.entry.now cuts.entry.now k) }
            {
                fill_band(
                    alloc,
                    grid,
                    shapes,
                    boxes,
                    ranges,
                    cuts.band(grid.cells(), k),
                )
            },
        )
        .collect::<Result<Vec<Rows>, NoMemory>>(rt, alloc)?
}

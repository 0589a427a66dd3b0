//! Shapes of boxes that come one after another.
ghost use Rattle.std.specs.Prelude.{◌≡◌, ◌+◌, ◌-◌, ◌^◌, ◌<◌, ◌≤◌, length, Some, IfOk, OnOk};
ghost use Rattle.std.specs.List.{All};
ghost use Rattle.grid_quantiser.specs.Axes.{cells_of, AreAxes};
ghost use Rattle.successor_box.specs.SuccessorBoxes.{cells_in};
ghost use Rattle.source_lists.specs.Fans.{ShapeIsCounted};
ghost use Rattle.source_lists.specs.inside.FanCounts.{KeepsFans};
ghost use Rattle.source_lists.specs.KnownShapes.{Knows, KnowsBoxes, StayKnown, edges_known, shapes_known};
ghost use Rattle.source_lists.specs.inside.ListedSegments.{KeepsSegments};
ghost use Rattle.plant_game.specs.BoxGame.{IsBox, edges_of};
ghost use Rattle.base.specs.declared.limits.TheConstants.{CELLS_LIMIT};

use crate::fans::{Fans, make_room};
use crate::shapes::{NO_SEGMENTS, Shapes};
use base::limits::EDGES_LIMIT;
use grid_quantiser::{CellBox, Grid};
use pair_box::PairBox;
use std::alloc::{AllocError, Global};

/// How many cells the shapes of the boxes so far have, and their segments. A shape is counted and listed with the first
/// box that has it. Past the limit on edges no more are listed.
#[derive(Drop)]
pub struct KnownShapes {
    fans: Fans,
    shapes: Shapes,
}

impl KnownShapes {
    /// Before the first box.
    pub fn new(alloc: Global, grid: &Grid) -> Result<KnownShapes, AllocError>
        ensures edges { IfOk result (λ known. edges_known known ≡ 0) }
        ensures known { IfOk result (Knows grid.now 0) }
    {
        let fans = Fans::none(alloc, grid.cells())?;
        let shapes = Shapes {
            ranges: Vec::with_capacity(alloc, grid.cells() as usize)?,
            segments: Vec::new(alloc),
        };
        Ok(KnownShapes { fans, shapes })
    }

    /// Takes in boxes that come next. After an error nothing is said of the shapes.
    pub fn add(&mut self, grid: &Grid, boxes: &[PairBox]) -> Result<(), AllocError>
        requires grid { AreAxes grid.now }
        requires limit { cells_of grid.now ≤ CELLS_LIMIT }
        requires ordered { All (IsBox grid.now) boxes.now }
        requires known { Knows grid.now (edges_known self.old) self.old }
        requires fits { edges_known self.old + edges_of grid.now boxes.now < 2 ^ 64 }
        ensures edges { IfOk result (λ _. edges_known self.new ≡ edges_known self.old + edges_of grid.now boxes.now) }
        ensures known { IfOk result (λ _. Knows grid.now (edges_known self.new) self.new) }
        ensures listed { OnOk result (KnowsBoxes grid.now self.new boxes.now) }
        ensures kept { OnOk result (StayKnown grid.now self.old self.new) }
    {
        let mut edges = self.fans.edges;
        for b in boxes {
            let cells = self.add_box(grid, b.get(), edges)?;
            edges += u64::from(cells);
        }
        self.fans.edges = edges;
        Ok(())
    }

    /// How many cells the boxes so far have.
    pub fn edges(&self) -> u64
        ensures { result ≡ edges_known self.now }
    {
        self.fans.edges
    }

    /// The segments of the shapes of these boxes.
    pub fn shapes(&self) -> &Shapes
        ensures { result.now ≡ shapes_known self.now }
    {
        &self.shapes
    }

    /// How many cells a box has, which comes after so many edges.
    #[inline]
    fn add_box(&mut self, grid: &Grid, b: Option<CellBox>, edges: u64) -> Result<u32, AllocError>
        requires grid { AreAxes grid.now }
        requires limit { cells_of grid.now ≤ CELLS_LIMIT }
        requires ordered { IsBox grid.now b }
        requires known { Knows grid.now edges self.old }
        requires fits { edges + length (cells_in grid.now b) < 2 ^ 64 }
        ensures known { IfOk result (λ cells. Knows grid.now (edges + cells) self.new) }
        ensures kept { IfOk result (λ _. KeepsFans grid.now self.old.fans.counts.items self.new.fans.counts.items) }
        ensures segments { IfOk result (λ _. KeepsSegments grid.now self.old.shapes self.new.shapes) }
        ensures counted { IfOk result (λ _. ShapeIsCounted grid.now self.new.fans.counts.items b) }
        ensures cells { IfOk result (λ cells. cells ≡ length (cells_in grid.now b)) }
    {
        let Some(b) = b else {
            return Ok(0);
        };
        match self.fans.known(b) {
            Some(cells) => Ok(cells),
            None => self.add_shape(grid, b, edges),
        }
    }

    /// Counts the cells of a box whose shape is new, and lists its segments.
    #[cold]
    fn add_shape(&mut self, grid: &Grid, b: CellBox, edges: u64) -> Result<u32, AllocError>
        requires grid { AreAxes grid.now }
        requires limit { cells_of grid.now ≤ CELLS_LIMIT }
        requires ordered { IsBox grid.now (Some b) }
        requires known { Knows grid.now edges self.old }
        requires fits { edges + length (cells_in grid.now (Some b)) < 2 ^ 64 }
        ensures known { IfOk result (λ cells. Knows grid.now (edges + cells) self.new) }
        ensures kept { IfOk result (λ _. KeepsFans grid.now self.old.fans.counts.items self.new.fans.counts.items) }
        ensures segments { IfOk result (λ _. KeepsSegments grid.now self.old.shapes self.new.shapes) }
        ensures counted { IfOk result (λ _. ShapeIsCounted grid.now self.new.fans.counts.items (Some b)) }
        ensures cells { IfOk result (λ cells. cells ≡ length (cells_in grid.now (Some b))) }
    {
        let distance = b.last - b.first;
        let cells = self.fans.count_shape(grid, b)?;
        if edges + u64::from(cells) > EDGES_LIMIT {
            return Ok(cells);
        }
        make_room(&mut self.shapes.ranges, distance as usize, NO_SEGMENTS)?;
        self.shapes.push_shape(grid, distance)?;
        Ok(cells)
    }
}

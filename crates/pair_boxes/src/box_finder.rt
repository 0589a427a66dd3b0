//! The boxes of some cells at a time.
ghost use Rattle.std.specs.Prelude.{◌≡◌, ◌*◌, ◌^◌, ◌<◌, length, IfOk};
ghost use Rattle.plant_record.specs.Description.{vectors_of};
ghost use Rattle.pair_boxes.specs.CellsFrom.{AreInputsOfCells, AreBoxesFrom};
ghost use Rattle.pair_boxes.specs.Finders.{plant_of, IsReady};

use crate::pair_boxes::boxes_of_cells;
use crate::terms::{StateTerms, build_tables};
use pair_box::PairBox;
use plant_record::Plant;
use std::alloc::{AllocError, Global};
use std::thread::Threads;
use successor_box::Sampled;

/// Finds the boxes of some cells at a time. What the extents along each axis add to a box was found before, once for all
/// pairs that share one.
#[derive(Drop)]
pub struct BoxFinder<'a> {
    pub(crate) sampled: Sampled<'a>,
    pub(crate) tables: Vec<StateTerms>,
}

impl<'a> BoxFinder<'a> {
    /// For the boxes of a plant.
    pub fn new<R: Threads + Sync>(
        rt: &R,
        alloc: Global,
        sampled: &Sampled<'a>,
    ) -> Result<BoxFinder<'a>, AllocError>
        ensures plant { IfOk result (λ finder. plant_of finder ≡ sampled.now.plant.now) }
        ensures ready { IfOk result IsReady }
    {
        let tables = build_tables(rt, alloc, sampled)?;
        Ok(BoxFinder {
            sampled: *sampled,
            tables,
        })
    }

    /// The plant.
    pub fn plant(&self) -> &Plant
        ensures { result.now ≡ plant_of self.now }
    {
        self.sampled.plant
    }

    /// Memory for the boxes of so many cells.
    pub fn room_for(&self, alloc: Global, cells: u32) -> Result<Vec<PairBox>, AllocError>
        ensures { IfOk result (λ boxes. length boxes.items ≡ cells * vectors_of (plant_of self.now).inputs) }
    {
        let inputs = self.sampled.plant.vectors() as usize;
        vec![in alloc; PairBox::ONE_CELL; cells as usize * inputs]
    }

    /// The boxes of cells from one on, one for each input.
    pub fn find(&self, c: u32, boxes: &mut [PairBox])
        requires ready { IsReady self.now }
        requires cells { AreInputsOfCells (plant_of self.now) c boxes.old }
        ensures long { length boxes.new ≡ length boxes.old }
        ensures each { AreBoxesFrom (plant_of self.now) c boxes.new }
    {
        boxes.fill(PairBox::ONE_CELL);
        boxes_of_cells(&self.sampled, &self.tables, c, boxes);
    }
}

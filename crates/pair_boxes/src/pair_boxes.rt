//! The boxes of all pairs.
ghost use Rattle.std.specs.Prelude.{◌≡◌, ℕ, ◌+◌, ◌*◌, ◌/◌, ◌^◌, ◌≤◌, ◌<◌, length, IfOk};
ghost use Rattle.std.specs.List.{All};
ghost use Rattle.grid_quantiser.specs.Axes.{cells_of};
ghost use Rattle.grid_quantiser.specs.ExtentBoxes.{one_cell};
ghost use Rattle.plant_record.specs.Description.{axes_of, vectors_of};
ghost use Rattle.pair_box.specs.PlantBoxes.{AreBoxesOf};
ghost use Rattle.pair_boxes.specs.declared.pair_boxes.TheConstants.{BOXES_PER_TASK};
ghost use Rattle.pair_boxes.specs.CellsFrom.{AreInputsOfCells, AreBoxesFrom};
ghost use Rattle.pair_boxes.specs.inside.Terms.{AreTermTablesOf};

use crate::cell_lines::boxes_in_line;
use crate::terms::{StateTerms, build_tables};
use pair_box::PairBox;
use raw_slots::RawList;
use std::alloc::{AllocError, Global};
use std::thread::Threads;
use successor_box::Sampled;

/// About how many pairs one call finds the boxes of, and twice as many where it finds all: to start a thread takes as long as some
/// thousands of them.
const BOXES_PER_TASK: usize = 4096;

/// So many cells share a call at least, where there are more calls than one: what the earlier states bring to a box is added once for
/// those of a line.
const CELLS_PER_TASK: usize = 8;

/// The box of each pair of a cell and an input. What the extents along each axis add to it is found first, once for
/// all pairs that share one.
pub fn build_boxes<R: Threads + Sync>(
    rt: &R,
    alloc: Global,
    sampled: &Sampled<'_>,
) -> Result<RawList<PairBox>, AllocError>
    ensures { IfOk result (λ boxes. AreBoxesOf sampled.now.plant.now boxes) }
{
    let p = sampled.plant;
    let tables = build_tables(rt, alloc, sampled)?;
    let tables = tables.as_slice();
    let cells = p.grid().cells() as usize;
    let inputs = p.vectors() as usize;
    RawList::by_chunks(
        rt,
        alloc,
        PairBox::ONE_CELL,
        cells * inputs,
        cells_in_chunk(cells, inputs) * inputs,
        |at: usize, boxes: &mut [PairBox]|
            requires tables { AreTermTablesOf sampled.now.plant.now tables.now }
            requires inputs { inputs ≡ vectors_of sampled.now.plant.now.inputs }
            requires some_input { 0 < inputs }
            requires cells { (n : ℕ) × (length boxes.now ≡ n * inputs) × (at / inputs + n ≤ cells_of (axes_of sampled.now.plant.now)) }
            requires start { All (λ b. b ≡ one_cell) boxes.now }
            ensures { (length boxes.exit.now ≡ length boxes.entry.now) × AreBoxesFrom sampled.entry.now.plant.now (at / inputs) boxes.exit.now }
        {
            boxes_of_cells(sampled, tables, (at / inputs) as u32, boxes);
        },
    )
}

/// How many cells share a call: all of them where they have few pairs, so that no thread is started.
fn cells_in_chunk(cells: usize, inputs: usize) -> usize
    requires some_cell { 0 < cells }
    requires some_input { 0 < inputs }
    requires fits { cells * inputs < 2 ^ 64 }
    ensures some { 1 ≤ result }
    ensures few { result ≤ 2 * BOXES_PER_TASK }
{
    if cells * inputs <= 2 * BOXES_PER_TASK {
        return cells;
    }
    (BOXES_PER_TASK / inputs).max(CELLS_PER_TASK)
}

/// The boxes of cells from one on, line by line.
pub(crate) fn boxes_of_cells(
    sampled: &Sampled<'_>,
    tables: &[StateTerms],
    c: u32,
    boxes: &mut [PairBox],
)
    requires tables { AreTermTablesOf sampled.now.plant.now tables.now }
    requires cells { AreInputsOfCells sampled.now.plant.now c boxes.old }
    requires start { All (λ b. b ≡ one_cell) boxes.old }
    ensures long { length boxes.new ≡ length boxes.old }
    ensures each { AreBoxesFrom sampled.now.plant.now c boxes.new }
{
    let p = sampled.plant;
    let inputs = p.vectors() as usize;
    let cells = boxes.len() / inputs;
    let line = p.grid().count(p.states() - 1) as usize;
    let mut done: usize = 0;
    while done < cells {
        let end = cells.min(done + line - (c as usize + done) % line);
        boxes_in_line(
            sampled,
            tables,
            c + done as u32,
            &mut boxes[done * inputs..end * inputs],
        );
        done = end;
    }
}

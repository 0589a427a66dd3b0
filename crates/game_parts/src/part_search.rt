//! The first wrong cell of a plant's game, of which only the boxes of some cells are kept at a time.
ghost use Rattle.std.specs.Prelude.{◌≡◌, ◌+◌, ◌-◌, ◌*◌, ◌^◌, ◌<◌, ◌≤◌, length, IfOk, IfErr, OnOk};
ghost use Rattle.grid_quantiser.specs.Axes.{cells_of};
ghost use Rattle.plant_record.specs.Description.{axes_of, vectors_of};
ghost use Rattle.plant_game.specs.Marks.{AreMarksOf};
ghost use Rattle.successor_box.specs.Deviations.{HasNoOverflow, deviations_of};
ghost use Rattle.pair_boxes.specs.CellsFrom.{AreBoxesFrom};
ghost use Rattle.pair_boxes.specs.Finders.{plant_of, IsReady};
ghost use Rattle.plant_game.specs.Faults.{IsFaultOf};
ghost use Rattle.game_parts.specs.GameParts.{IsFirstInGame};
ghost use Rattle.game_parts.specs.inside.GameParts.{cells_for, inputs_for, HaveFirst, IsFound, IsFoundIn};
ghost use Rattle.game_parts.specs.inside.Findings.{HoldFindings, edges_found, first_found, SaysExcess};
ghost use Rattle.source_lists.specs.KnownShapes.{KnowsBoxes, HasFewEdges, edges_known};
ghost use Rattle.plant_game.specs.BoxGame.{edges_of};

use crate::game_part::GamePart;
use base::limits::EDGES_LIMIT;
use game_core::{CellJudge, Mark};
use pair_box::PairBox;
use pair_boxes::BoxFinder;
use plant_game::{BuildFault, build_marks};
use plant_record::Plant;
use rayon::current_num_threads;
use rayon::prelude::*;
use source_lists::KnownShapes;
use std::alloc::{AllocError, Global};
use std::thread::Threads;
use successor_box::{Sampled, Slopes};

/// About how many pairs' boxes are kept at a time, in fast memory.
const PAIRS_AT_A_TIME: u32 = 1 << 12;

/// The boxes of so many cells at least are found at a time: what the earlier states bring to a box is added once for those
/// of a line.
const CELLS_AT_A_TIME: u32 = 8;

/// So many pairs for each part at least: to start a thread takes as long as to judge some thousands of them.
const PAIRS_FOR_A_PART: u32 = 1 << 16;

/// So many parts for each processor, since some take longer than others.
const PARTS_FOR_A_PROCESSOR: u32 = 4;

/// More processors get no more parts.
const PROCESSORS_LIMIT: u32 = 64;

/// What was found at the cells of a part.
#[derive(Clone, Copy)]
pub(crate) struct PartFinding {
    /// How many successors their pairs have.
    pub(crate) edges: u64,
    /// The first wrong cell, unless there are too many edges.
    pub(crate) first: Option<u32>,
}

/// The first wrong cell of the game of a plant. Parts of the cells are judged side by side, and only the boxes of some
/// cells of each part are kept at a time.
pub fn find_first_wrong<R: Threads + Sync, J: CellJudge + Sync>(
    rt: &R,
    alloc: Global,
    p: &Plant,
    s: &Slopes,
    judge: &J,
) -> Result<Option<u32>, BuildFault>
    requires slopes { s.now ≡ deviations_of p.now }
    requires fits { HasNoOverflow p.now }
    requires judged { J.judges judge.now (cells_of (axes_of p.now)) (vectors_of p.now.inputs) }
    ensures first { IfOk result (IsFirstInGame p.now (J.is_right judge.now)) }
    ensures fault { IfErr result (IsFaultOf p.now) }
{
    let finder = BoxFinder::new(rt, alloc, &Sampled::new(p, s))?;
    let marks = build_marks(alloc, p)?;
    let size = cells_for_a_part(rt, p.grid().cells(), p.vectors());
    let findings = find_all(rt, alloc, &finder, &marks, judge, size)?;
    sum_up(&findings)
}

/// How many cells a part has. There are some parts for each processor, unless there are few pairs.
fn cells_for_a_part<R: Threads>(rt: &R, cells: u32, inputs: u32) -> u32
    requires some_cell { 1 ≤ cells }
    requires some_input { 1 ≤ inputs }
    requires fits { cells * inputs < 2 ^ 32 }
    ensures some { 1 ≤ result }
    ensures few { result ≤ cells }
{
    let most = cells * inputs / PAIRS_FOR_A_PART;
    if most <= 1 {
        // One part needs no number of processors, for which the system's files are read.
        return cells;
    }
    let processors = current_num_threads(rt).min(PROCESSORS_LIMIT as usize) as u32;
    if processors <= 1 {
        return cells;
    }
    cells.div_ceil(most.min(PARTS_FOR_A_PROCESSOR * processors))
}

/// What is found at the cells of each part of so many cells.
fn find_all<R: Threads + Sync, J: CellJudge + Sync>(
    rt: &R,
    alloc: Global,
    finder: &BoxFinder<'_>,
    marks: &[Mark],
    judge: &J,
    size: u32,
) -> Result<Vec<PartFinding>, AllocError>
    requires ready { IsReady finder.now }
    requires marks { AreMarksOf (plant_of finder.now) marks.now }
    requires judged { J.judges judge.now (cells_for finder.now) (inputs_for finder.now) }
    requires some { 1 ≤ size }
    requires few { size ≤ cells_for finder.now }
    ensures { IfOk result (λ all. HoldFindings (plant_of finder.now) marks.now (J.is_right judge.now) size all.items) }
{
    let cells = finder.plant().grid().cells();
    (0..cells.div_ceil(size))
        .into_par_iter()
        .with_min_len(1)
        .map(
            |k: u32| -> Result<PartFinding, AllocError>
                requires ready { IsReady finder.now }
                requires marks { AreMarksOf (plant_of finder.now) marks.now }
                requires judged { J.judges judge.now (cells_for finder.now) (inputs_for finder.now) }
                requires cells { cells ≡ cells_for finder.now }
                requires few { size ≤ cells }
                requires part { k * size < cells }
                ensures { IfOk result (IsFoundIn finder.entry.now marks.entry.now (J.is_right judge.entry.now) cells size k) }
            {
                let from = k * size;
                find_in(alloc, finder, marks, judge, from, cells.min(from + size))
            },
        )
        .collect::<Result<Vec<PartFinding>, AllocError>>(rt, alloc)?
}

/// What is found at the cells from one up to another.
fn find_in<J: CellJudge>(
    alloc: Global,
    finder: &BoxFinder<'_>,
    marks: &[Mark],
    judge: &J,
    from: u32,
    to: u32,
) -> Result<PartFinding, AllocError>
    requires ready { IsReady finder.now }
    requires marks { AreMarksOf (plant_of finder.now) marks.now }
    requires judged { J.judges judge.now (cells_for finder.now) (inputs_for finder.now) }
    requires ordered { from ≤ to }
    requires cells { to ≤ cells_for finder.now }
    ensures { IfOk result (IsFound finder.now marks.now (J.is_right judge.now) from to) }
{
    let grid = *finder.plant().grid();
    let inputs = finder.plant().vectors();
    let size = cells_at_a_time(grid.cells(), inputs);
    let mut boxes = finder.room_for(alloc, size)?;
    let mut known = KnownShapes::new(alloc, &grid)?;
    let mut first: Option<u32> = None;
    let mut done = from;
    while done < to {
        let end = to.min(done + size);
        boxes.truncate(((end - done) * inputs) as usize);
        finder.find(done, &mut boxes);
        known.add(&grid, &boxes)?;
        if first.is_none() {
            first = first_by_boxes(finder, marks, judge, &boxes, &known, done, end);
        }
        done = end;
    }
    Ok(PartFinding {
        edges: known.edges(),
        first,
    })
}

/// The boxes of how many cells are kept at a time.
fn cells_at_a_time(cells: u32, inputs: u32) -> u32
    requires some_cell { 1 ≤ cells }
    requires some_input { 1 ≤ inputs }
    ensures some { 1 ≤ result }
    ensures few { result ≤ cells }
{
    (PAIRS_AT_A_TIME / inputs).max(CELLS_AT_A_TIME).min(cells)
}

/// The first wrong cell of some whose boxes are there, unless there are too many edges.
fn first_by_boxes<J: CellJudge>(
    finder: &BoxFinder<'_>,
    marks: &[Mark],
    judge: &J,
    boxes: &[PairBox],
    known: &KnownShapes,
    from: u32,
    to: u32,
) -> Option<u32>
    requires marks { AreMarksOf (plant_of finder.now) marks.now }
    requires judged { J.judges judge.now (cells_for finder.now) (inputs_for finder.now) }
    requires ordered { from ≤ to }
    requires cells { to ≤ cells_for finder.now }
    requires long { length boxes.now ≡ (to - from) * inputs_for finder.now }
    requires each { AreBoxesFrom (plant_of finder.now) from boxes.now }
    requires listed { KnowsBoxes (axes_of (plant_of finder.now)) known.now boxes.now }
    requires edges { edges_of (axes_of (plant_of finder.now)) boxes.now ≤ edges_known known.now }
    ensures { HasFewEdges known.now → HaveFirst (plant_of finder.now) marks.now (J.is_right judge.now) from to boxes.now result }
{
    if known.edges() > EDGES_LIMIT {
        return None;
    }
    let plant = finder.plant();
    let inputs = plant.vectors();
    let part = GamePart {
        grid: *plant.grid(),
        inputs,
        marks,
        first: from * inputs,
        boxes,
        shapes: known.shapes(),
    };
    judge.first_wrong(&part, from, to)
}

/// The first wrong cell of all parts.
fn sum_up(findings: &[PartFinding]) -> Result<Option<u32>, BuildFault>
    requires fits { edges_found findings.now < 2 ^ 64 }
    ensures few { OnOk result (edges_found findings.now ≤ EDGES_LIMIT) }
    ensures first { IfOk result (λ first. first ≡ first_found findings.now) }
    ensures fault { IfErr result (SaysExcess (edges_found findings.now)) }
{
    let mut edges: u64 = 0;
    let mut first: Option<u32> = None;
    for finding in findings {
        edges += finding.edges;
        if first.is_none() {
            first = finding.first;
        }
    }
    if edges > EDGES_LIMIT {
        return Err(BuildFault::TooManyEdges { edges });
    }
    Ok(first)
}

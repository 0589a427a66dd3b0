//! The boxes of the cells in a line.
ghost use Rattle.std.specs.Prelude.{◌≡◌, ℕ, ◌*◌, ◌<◌, ◌≤◌, length, replicate, slice_index_or, None, IsTrue, IfSome};
ghost use Rattle.std.specs.List.{All};
ghost use Rattle.fixed_expr.specs.declared.lanes.TheConstants.{LANES};
ghost use Rattle.grid_quantiser.specs.Axes.{cells_of};
ghost use Rattle.grid_quantiser.specs.ExtentBoxes.{one_cell};
ghost use Rattle.plant_record.specs.Description.{axes_of, vectors_of};
ghost use Rattle.pair_box.specs.Sums.{plus};
ghost use Rattle.pair_boxes.specs.CellsFrom.{AreBoxesFrom};
ghost use Rattle.pair_boxes.specs.inside.TermSums.{term_under, AreChangedBy};
ghost use Rattle.pair_boxes.specs.inside.CellLines.{AreInputsOfLine, AreSumsOfLine, AreCopiesOfFirst, AreSumsOfCells, HaveCells, AddsToCells, BecomeWhole, BecomeBoxes};
ghost use Rattle.pair_boxes.specs.inside.Terms.{AreIndicesOf, HasSums, HasSumsWith, AddsTerms, AddsState, IsTermTableOf, AreTermTablesOf};
ghost use Rattle.pair_box.specs.declared.pair_box.TheConstants.{SUMS_LIMIT};

use crate::digits::indices_of;
use crate::per_pair::add_per_pair;
use crate::state_of::StateOf;
use crate::terms::{StateTerms, TermTable, Terms};
use fixed_expr::LANES;
use pair_box::PairBox;
use successor_box::{INDICES_LIMIT, Sampled};

/// The boxes of about so many pairs are gone over at once.
const PAIRS_AT_ONCE: usize = 256;

/// The boxes of cells in a line, one for each input, which differ in the index along the last state alone. What the
/// first states bring is the same along the line, and is found once, for the first cell.
pub(crate) fn boxes_in_line(
    sampled: &Sampled<'_>,
    tables: &[StateTerms],
    c: u32,
    boxes: &mut [PairBox],
)
    requires tables { AreTermTablesOf sampled.now.plant.now tables.now }
    requires line { AreInputsOfLine sampled.now.plant.now c boxes.old }
    requires start { All (λ b. b ≡ one_cell) boxes.old }
    ensures long { length boxes.new ≡ length boxes.old }
    ensures each { AreBoxesFrom sampled.now.plant.now c boxes.new }
{
    let p = sampled.plant;
    let inputs = p.vectors() as usize;
    let last = p.states() as usize - 1;
    let mut indices = indices_of(sampled, c, 0);
    let first = indices[last];
    let early = add_early(sampled, tables, &indices, &mut boxes[..inputs]);
    copy_first(inputs, boxes);
    let cells = boxes.len() / inputs;
    let size = cells_at_once(inputs, &tables[early..]);
    let mut done: usize = 0;
    while done < cells {
        let end = cells.min(done + size);
        indices[last] = first + done as u32;
        let block = &mut boxes[done * inputs..end * inputs];
        add_late(sampled, tables, early, &indices, block);
        done = end;
    }
}

/// Adds the terms of the first states, as far as they are the same all along a line, and answers how many.
fn add_early(
    sampled: &Sampled<'_>,
    tables: &[StateTerms],
    indices: &[u32; INDICES_LIMIT],
    boxes: &mut [PairBox],
) -> usize
    requires tables { AreTermTablesOf sampled.now.plant.now tables.now }
    requires cell { (c : ℕ) × (c < cells_of (axes_of sampled.now.plant.now)) × AreIndicesOf sampled.now.plant.now c indices.now }
    requires one_each { length boxes.old ≡ vectors_of sampled.now.plant.now.inputs }
    requires start { All (λ b. b ≡ one_cell) boxes.old }
    ensures long { length boxes.new ≡ length boxes.old }
    ensures states { result ≤ length sampled.now.plant.now.equations }
    ensures along { AreSumsOfLine sampled.now.plant.now result indices.now boxes.new }
{
    let last = sampled.plant.states() - 1;
    for state in 0..tables.len() {
        let StateTerms::Table(table) = &tables[state] else {
            return state;
        };
        if !table.stays_along_lines(state as u32, last) {
            return state;
        }
        let first = table.first(indices);
        let own = table.shifted_by(indices[state]);
        let of = StateOf {
            sampled: *sampled,
            state: state as u32,
            stride: table.stride,
        };
        add_terms(&of, table, first, own, boxes);
    }
    tables.len()
}

/// How many cells are gone over at once: as many as have their extents found at once, where a state is without a table, and
/// else so many that their boxes stay in fast memory while one state's terms after another are added.
fn cells_at_once(inputs: usize, late: &[StateTerms]) -> usize
    requires { 0 < inputs }
    ensures some { 1 ≤ result }
    ensures few { result ≤ LANES }
{
    for terms in late {
        if let StateTerms::PerPair { .. } = terms {
            return LANES;
        }
    }
    (PAIRS_AT_ONCE / inputs).max(1).min(LANES)
}

/// Copies the boxes of the first cell to all others.
fn copy_first(inputs: usize, boxes: &mut [PairBox])
    requires { 0 < inputs }
    ensures long { length boxes.new ≡ length boxes.old }
    ensures copied { AreCopiesOfFirst inputs boxes.old boxes.new }
{
    for cell in 1..boxes.len() / inputs {
        boxes.copy_within(..inputs, cell * inputs);
    }
}

/// Adds the terms of the states from one on to the boxes of cells in a line, from the one with these indices on. Those that
/// depend on no input are summed apart, in a base for each cell, and added to its boxes once.
fn add_late(
    sampled: &Sampled<'_>,
    tables: &[StateTerms],
    from: usize,
    indices: &[u32; INDICES_LIMIT],
    boxes: &mut [PairBox],
)
    requires tables { AreTermTablesOf sampled.now.plant.now tables.now }
    requires from { from ≤ length sampled.now.plant.now.equations }
    requires cells { HaveCells sampled.now.plant.now from indices.now (replicate LANES one_cell) boxes.old }
    ensures long { length boxes.new ≡ length boxes.old }
    ensures each { BecomeBoxes sampled.now.plant.now from indices.now boxes.old boxes.new }
{
    let mut bases = [PairBox::ONE_CELL; LANES];
    for state in from..tables.len() {
        match &tables[state] {
            StateTerms::Table(table) => {
                let of = StateOf {
                    sampled: *sampled,
                    state: state as u32,
                    stride: table.stride,
                };
                add_table(&of, table, indices, &mut bases, boxes);
            }
            StateTerms::PerPair { stride, increments } => {
                let of = StateOf {
                    sampled: *sampled,
                    state: state as u32,
                    stride: *stride,
                };
                add_per_pair(&of, increments.as_deref(), indices, boxes);
            }
        }
    }
    add_bases(sampled, &bases, boxes);
}

/// Adds the terms of a state to the boxes of cells in a line, from the one with these indices on, or to their bases.
fn add_table(
    of: &StateOf<'_>,
    table: &TermTable,
    indices: &[u32; INDICES_LIMIT],
    bases: &mut [PairBox; LANES],
    boxes: &mut [PairBox],
)
    requires table { IsTermTableOf of.now.sampled.plant.now of.now.state table.now }
    requires cells { HaveCells of.now.sampled.plant.now of.now.state indices.now bases.old boxes.old }
    ensures long { length boxes.new ≡ length boxes.old }
    ensures added { AddsToCells of.now.sampled.plant.now of.now.state indices.now bases.old bases.new boxes.old boxes.new }
{
    let p = of.sampled.plant;
    let inputs = p.vectors() as usize;
    let last = p.states() - 1;
    let cells = boxes.len() / inputs;
    let first = table.first(indices);
    // One cell alone makes no step, and none then needs to fit.
    let step = if cells > 1 { table.step(last) } else { 0 };
    let own = table.shifted_by(indices[of.state as usize]);
    let own_step = table.shifted_by(u32::from(of.state == last));
    for cell in 0..cells {
        let slot = first + cell as u32 * step;
        let own = own + cell as u32 * own_step;
        let at = cell * inputs;
        let cell_boxes = &mut boxes[at..at + inputs];
        bases[cell] = add_state(of, table, slot, own, bases[cell], cell_boxes);
    }
}

/// Adds to all boxes of each cell its base.
fn add_bases(sampled: &Sampled<'_>, bases: &[PairBox; LANES], boxes: &mut [PairBox])
    requires { (c n : ℕ) × AreSumsOfCells sampled.now.plant.now (length sampled.now.plant.now.equations) c n bases.now boxes.old }
    ensures long { length boxes.new ≡ length boxes.old }
    ensures each { BecomeWhole sampled.now.plant.now bases.now boxes.old boxes.new }
{
    let inputs = sampled.plant.vectors() as usize;
    for cell in 0..boxes.len() / inputs {
        let at = cell * inputs;
        add_base(bases[cell], &mut boxes[at..at + inputs]);
    }
}

/// Adds the terms of a state to the boxes of a cell that brings `first` and shifts the extents so many indices, or to the sum of
/// what is the same under all inputs.
#[inline]
fn add_state(
    of: &StateOf<'_>,
    table: &TermTable,
    first: u32,
    own: u32,
    base: PairBox,
    boxes: &mut [PairBox],
) -> PairBox
    requires table { IsTermTableOf of.now.sampled.plant.now of.now.state table.now }
    requires cell { HasSumsWith of.now.sampled.plant.now of.now.state table.now first own base boxes.old }
    requires one_each { length boxes.old ≡ vectors_of of.now.sampled.plant.now.inputs }
    ensures long { length boxes.new ≡ length boxes.old }
    ensures added { AddsState of.now.sampled.plant.now of.now.state table.now first own base result boxes.old boxes.new }
{
    if !table.free {
        add_terms(of, table, first, own, boxes);
        return base;
    }
    base.plus(table.term(of, first, own, 0))
}

/// Adds the terms of a state to the boxes of such a cell, one for each input.
fn add_terms(of: &StateOf<'_>, table: &TermTable, first: u32, own: u32, boxes: &mut [PairBox])
    requires table { IsTermTableOf of.now.sampled.plant.now of.now.state table.now }
    requires cell { HasSums of.now.sampled.plant.now of.now.state table.now first own boxes.old }
    requires one_each { length boxes.old ≡ vectors_of of.now.sampled.plant.now.inputs }
    ensures long { length boxes.new ≡ length boxes.old }
    ensures added { AddsTerms of.now.sampled.plant.now of.now.state table.now first own boxes.old boxes.new }
{
    match &table.terms {
        Terms::Listed(terms) => add_listed(&table.inputs, &terms[first as usize..], boxes),
        Terms::Shifted(_) => add_shifted(of, table, first, own, boxes),
    }
}

/// Adds terms to boxes, by the slot that each input has among them.
fn add_listed(inputs: &[u32], terms: &[PairBox], boxes: &mut [PairBox])
    requires one_each { length boxes.old ≡ length inputs.now }
    requires indices { All (λ n. n < length terms.now) inputs.now }
    requires terms { All (λ n. IfSome (slice_index_or terms.now n None) (λ b. b.last < SUMS_LIMIT)) inputs.now }
    requires boxes { All (λ b. IfSome b (λ b. b.last < SUMS_LIMIT)) boxes.old }
    ensures long { length boxes.new ≡ length boxes.old }
    ensures each { AreChangedBy (λ u b. plus b (term_under terms.now inputs.now u)) boxes.old boxes.new }
{
    for i in 0..boxes.len() {
        boxes[i] = boxes[i].plus(terms[inputs[i] as usize]);
    }
}

/// Adds the terms of a state, found one by one, to the boxes of a cell that brings `first` and shifts the extents so many indices.
fn add_shifted(of: &StateOf<'_>, table: &TermTable, first: u32, own: u32, boxes: &mut [PairBox])
    requires table { IsTermTableOf of.now.sampled.plant.now of.now.state table.now }
    requires cell { HasSums of.now.sampled.plant.now of.now.state table.now first own boxes.old }
    requires one_each { length boxes.old ≡ vectors_of of.now.sampled.plant.now.inputs }
    ensures long { length boxes.new ≡ length boxes.old }
    ensures added { AddsTerms of.now.sampled.plant.now of.now.state table.now first own boxes.old boxes.new }
{
    for input in 0..of.sampled.plant.vectors() {
        let term = table.term(of, first, own, input);
        boxes[input as usize] = boxes[input as usize].plus(term);
    }
}

/// Adds to all boxes of a cell what is the same under all inputs.
#[inline]
fn add_base(base: PairBox, boxes: &mut [PairBox])
    requires base { IfSome base (λ b. b.last < SUMS_LIMIT) }
    requires boxes { All (λ b. IfSome b (λ b. b.last < SUMS_LIMIT)) boxes.old }
    ensures long { length boxes.new ≡ length boxes.old }
    ensures each { AreChangedBy (λ _ b. plus base b) boxes.old boxes.new }
{
    if base.is_one_cell() {
        return;
    }
    for i in 0..boxes.len() {
        boxes[i] = base.plus(boxes[i]);
    }
}

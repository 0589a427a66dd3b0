//! What the extents of all boxes add to them, state by state: a box is a sum of terms, one for each state.
ghost use Rattle.std.specs.Prelude.{◌≡◌, ℕ, ◌+◌, ◌*◌, ◌^◌, ◌<◌, ◌≤◌, length, slice_index_or, if◌then◌else◌, IsTrue, IfOk};
ghost use Rattle.std.specs.List.{All};
ghost use Rattle.grid_quantiser.specs.Axes.{no_axis};
ghost use Rattle.plant_record.specs.Description.{axes_of, vectors_of};
ghost use Rattle.successor_box.specs.PairExtents.{shifts_along};
ghost use Rattle.successor_box.specs.declared.central_value.TheConstants.{INDICES_LIMIT};
ghost use Rattle.pair_boxes.specs.inside.CellLines.{StaysAlongLines};
ghost use Rattle.pair_boxes.specs.inside.ExtentTables.{IsRelativeExtent, IsExtentTableOf};
ghost use Rattle.pair_boxes.specs.inside.Terms.{first_in, step_of, own_count, IsTermFrom, Brings, IsTermBrought, HoldTermsFrom, IsTermTableOf, AreTermsOf, AreTermTablesOf};
ghost use Rattle.base.specs.declared.limits.TheConstants.{PAIRS_LIMIT};

use crate::digits::{Digit, Digits, build_digits, slot_of};
use crate::extent_table::{ExtentTable, build_table};
use crate::state_of::StateOf;
use grid_quantiser::Extent;
use pair_box::PairBox;
use raw_slots::RawList;
use std::alloc::{AllocError, Global};
use std::thread::Threads;
use successor_box::{INDICES_LIMIT, Sampled};

/// Terms are listed where there are at least so many pairs for each.
const PAIRS_FOR_EACH_TERM: usize = 8;

/// The terms of a state: in a table, or each found where its pair's box is made, since no two pairs share an extent,
/// with how much each input vector adds to the equation's value where inputs are only added.
#[derive(Drop)]
pub(crate) enum StateTerms {
    Table(TermTable),
    PerPair {
        stride: u32,
        increments: Option<Vec<i64>>,
    },
}

/// What the extents along an axis add to boxes.
#[derive(Drop)]
pub(crate) enum Terms {
    /// The terms, for each index of a cell along the axis, where these shift the extents, one slot after another.
    Listed(Vec<PairBox>),
    /// The extents, of which each term is found as it is asked for.
    Shifted(RawList<Option<Extent>>),
}

/// What the extents along the axis of a state add to boxes, by the digits that find them. Where the terms are listed and
/// the extents shift with a cell's own index, that is one more digit. `stride` is how many cells one index along the axis
/// makes, and in a `free` table no term depends on an input.
#[derive(Drop)]
pub(crate) struct TermTable {
    pub(crate) digits: Vec<Digit>,
    pub(crate) inputs: Vec<u32>,
    pub(crate) terms: Terms,
    pub(crate) shifts: bool,
    pub(crate) free: bool,
    pub(crate) stride: u32,
}

impl TermTable {
    /// What the indices of a cell bring to the slot of its terms.
    #[inline]
    pub(crate) fn first(&self, indices: &[u32; INDICES_LIMIT]) -> u32
        requires variables { All (λ d. d.variable < INDICES_LIMIT) self.now.digits.items }
        requires fits { first_in self.now indices.now < 2 ^ 32 }
        ensures { result ≡ first_in self.now indices.now }
    {
        slot_of(&self.digits, indices)
    }

    /// How many slots a cell is from the one before it in a line, which differs in its index along the last state.
    pub(crate) fn step(&self, last: u32) -> u32
        requires fits { step_of self.now last < 2 ^ 32 }
        ensures { result ≡ step_of self.now last }
    {
        let mut step = 0;
        for d in &self.digits {
            if d.variable == last {
                step += d.stride;
            }
        }
        step
    }

    /// How many indices a cell shifts the extents, by its own index along the axis.
    #[inline]
    pub(crate) fn shifted_by(&self, index: u32) -> u32
        ensures { result ≡ (if self.now.shifts then index else 0) }
    {
        if self.shifts { index } else { 0 }
    }

    /// Whether a state's terms are the same all along each line: they depend on no index along the last state, nor
    /// shift with it.
    pub(crate) fn stays_along_lines(&self, state: u32, last: u32) -> bool
        ensures { IsTrue result → StaysAlongLines last state self.now }
    {
        for d in &self.digits {
            if d.variable == last {
                return false;
            }
        }
        !(self.shifts && state == last)
    }

    /// The term of the box of a cell that brings `first` and shifts the extents so many indices, under an input.
    #[inline]
    pub(crate) fn term(&self, of: &StateOf<'_>, first: u32, own: u32, input: u32) -> PairBox
        requires table { IsTermTableOf of.now.sampled.plant.now of.now.state self.now }
        requires cell { (c : ℕ) × Brings of.now.sampled.plant.now of.now.state self.now first own c }
        requires input { input < vectors_of of.now.sampled.plant.now.inputs }
        ensures { IsTermBrought of.now.sampled.plant.now of.now.state self.now first own input result }
    {
        let slot = first as usize + self.inputs[input as usize] as usize;
        match &self.terms {
            Terms::Listed(terms) => terms[slot],
            Terms::Shifted(extents) => term_of(of, extents.as_slice()[slot], own),
        }
    }
}

/// What an extent adds to a box, so many indices further along the axis.
#[inline]
pub(crate) fn term_of(of: &StateOf<'_>, extent: Option<Extent>, indices: u32) -> PairBox
    requires indices { indices < (slice_index_or (axes_of of.now.sampled.plant.now) of.now.state no_axis).count }
    requires extent { IsRelativeExtent of.now.sampled.plant.now of.now.state extent }
    ensures { IsTermFrom of.now.sampled.plant.now of.now.state indices extent result }
{
    let grid = of.sampled.plant.grid();
    PairBox::term(grid.shifted_extent(of.state, extent, indices), of.stride)
}

/// The terms of all boxes, state by state.
pub(crate) fn build_tables<R: Threads + Sync>(
    rt: &R,
    alloc: Global,
    sampled: &Sampled<'_>,
) -> Result<Vec<StateTerms>, AllocError>
    ensures { IfOk result (λ tables. AreTermTablesOf sampled.now.plant.now tables.items) }
{
    let p = sampled.plant;
    let mut tables = Vec::new(alloc);
    let mut stride = p.grid().cells();
    for state in 0..p.states() {
        stride /= p.grid().count(state);
        let of = StateOf {
            sampled: *sampled,
            state,
            stride,
        };
        tables.push(build_state(rt, alloc, &of)?)?;
    }
    Ok(tables)
}

/// The terms along the axis of one state: a table, unless it would have a slot for each pair.
fn build_state<R: Threads + Sync>(
    rt: &R,
    alloc: Global,
    of: &StateOf<'_>,
) -> Result<StateTerms, AllocError>
    ensures { IfOk result (λ terms. AreTermsOf of.now.sampled.plant.now of.now.state terms) }
{
    let digits = build_digits(alloc, of)?;
    if has_slot_for_each_pair(of, &digits) {
        return Ok(StateTerms::PerPair {
            stride: of.stride,
            increments: of.sampled.input_increments(alloc, of.state)?,
        });
    }
    let extents = build_table(rt, alloc, of, digits)?;
    Ok(StateTerms::Table(build_terms(alloc, of, extents)?))
}

/// Whether a table of extents would have a slot for each pair, and none be shifted: then it would only be written and read
/// once.
fn has_slot_for_each_pair(of: &StateOf<'_>, digits: &Digits) -> bool {
    let p = of.sampled.plant;
    !p.equation(of.state).shifts_with(of.state) && digits.slots == p.grid().cells() * p.vectors()
}

/// The terms along the axis of one state, listed if they are few.
fn build_terms(alloc: Global, of: &StateOf<'_>, table: ExtentTable) -> Result<TermTable, AllocError>
    requires { IsExtentTableOf of.now.sampled.plant.now of.now.state table }
    ensures { IfOk result (λ terms. IsTermTableOf of.now.sampled.plant.now of.now.state terms) }
{
    let p = of.sampled.plant;
    let own = own_indices_along(of, table.shifts);
    let pairs = p.grid().cells() as usize * p.vectors() as usize;
    if table.extents.as_slice().len() <= pairs / PAIRS_FOR_EACH_TERM / own as usize {
        return build_listed(alloc, of, own, table);
    }
    let free = are_zero(&table.inputs);
    Ok(TermTable {
        digits: table.digits,
        inputs: table.inputs,
        terms: Terms::Shifted(table.extents),
        shifts: table.shifts,
        free,
        stride: of.stride,
    })
}

/// The terms that extents make, for each of so many indices of a cell along the axis.
fn build_listed(
    alloc: Global,
    of: &StateOf<'_>,
    own: u32,
    table: ExtentTable,
) -> Result<TermTable, AllocError>
    requires own { own ≡ own_count of.now.sampled.plant.now of.now.state }
    requires few { own * length table.extents ≤ PAIRS_LIMIT }
    requires table { IsExtentTableOf of.now.sampled.plant.now of.now.state table }
    ensures { IfOk result (λ terms. IsTermTableOf of.now.sampled.plant.now of.now.state terms) }
{
    let ExtentTable {
        mut digits,
        inputs,
        extents,
        shifts,
    } = table;
    let extents = extents.as_slice();
    let terms = build_term_list(alloc, of, own, extents)?;
    if shifts {
        digits.push(Digit {
            variable: of.state,
            count: own,
            stride: extents.len() as u32,
        })?;
    }
    let free = are_zero(&inputs);
    Ok(TermTable {
        digits,
        inputs,
        terms: Terms::Listed(terms),
        shifts,
        free,
        stride: of.stride,
    })
}

/// Whether all numbers are 0.
fn are_zero(numbers: &[u32]) -> bool
    ensures { IsTrue result → All (λ n. n ≡ 0) numbers.now }
{
    for n in numbers {
        if *n != 0 {
            return false;
        }
    }
    true
}

/// How many indices of cells along the axis of a state there are, by which its extents shift.
fn own_indices_along(of: &StateOf<'_>, shifts: bool) -> u32
    requires { shifts ≡ shifts_along of.now.sampled.plant.now of.now.state }
    ensures { result ≡ own_count of.now.sampled.plant.now of.now.state }
{
    if shifts {
        of.sampled.plant.grid().count(of.state)
    } else {
        1
    }
}

/// The terms of extents, shifted by each of so many indices, one slot after another.
fn build_term_list(
    alloc: Global,
    of: &StateOf<'_>,
    own: u32,
    extents: &[Option<Extent>],
) -> Result<Vec<PairBox>, AllocError>
    requires own { own ≡ own_count of.now.sampled.plant.now of.now.state }
    requires few { own * length extents.now ≤ PAIRS_LIMIT }
    requires extents { All (IsRelativeExtent of.now.sampled.plant.now of.now.state) extents.now }
    ensures long { IfOk result (λ terms. length terms.items ≡ own * length extents.now) }
    ensures each { IfOk result (λ terms. HoldTermsFrom of.now.sampled.plant.now of.now.state own extents.now terms.items) }
{
    let slots = extents.len();
    let all = own as usize * slots;
    let mut terms = Vec::with_capacity(alloc, all)?;
    for n in 0..all {
        let index = (n / slots) as u32;
        terms.push(term_of(of, extents[n % slots], index))?;
    }
    Ok(terms)
}

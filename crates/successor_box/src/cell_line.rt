//! Cells in a line, one in each lane.
ghost use Rattle.std.specs.Prelude.{◌≡◌, ℕ, ◌-◌, ◌<◌, ◌≤◌, min, pos, length};
ghost use Rattle.plant_record.specs.Description.{vectors_of};
ghost use Rattle.plant_record.specs.Limits.{IsWithinLimits};
ghost use Rattle.successor_box.specs.PairExtents.{AreInputIndices};
ghost use Rattle.successor_box.specs.CellLines.{LiesInGrid, HaveCentresOf, KeepCentres, AreCentresOf};
ghost use Rattle.successor_box.specs.inside.Lines.{HoldsInLanes, AreValuesUnder, middle_after, HasMiddleAfter};

use crate::central_value::{INDICES_LIMIT, central_value, first_middle, middle};
use crate::sampled::Sampled;
use base::limits::VARIABLES_LIMIT;
use expr_lanes::ValuesAlong;
use fixed_expr::LANES;
use plant_record::Plant;

/// The values of the variables at the centres of cells in a line, one in each lane, under an input vector: the cells differ in
/// their index along one state alone.
#[derive(Clone, Copy)]
pub struct CellLine {
    pub(crate) values: [i64; VARIABLES_LIMIT],
    pub(crate) along: u32,
    pub(crate) column: [i64; LANES],
    pub(crate) input: u32,
}

impl CellLine {
    /// So many cells along a state, from the one that has these indices in the states on, under the input vector that has those
    /// after them. The last cell stands in the lanes past it too.
    pub fn new(p: &Plant, indices: &[u32; INDICES_LIMIT], along: u32, cells: usize) -> CellLine
        requires along { along < length p.now.states }
        requires some { 1 ≤ cells }
        requires within { LiesInGrid p.now indices.now along cells }
        requires input { (u : ℕ) × AreInputIndices p.now indices.now u }
        ensures input { AreInputIndices p.now indices.now result.input }
        ensures cells { HaveCentresOf p.now indices.now along cells result }
    {
        let mut values = [0; VARIABLES_LIMIT];
        for k in 0..p.variables() {
            values[k as usize] = central_value(p, indices, k);
        }
        let (first, width) = first_middle(p, along);
        CellLine {
            values,
            along,
            column: middles(first, width, indices[along as usize], cells),
            input: input_number(p, indices),
        }
    }

    /// Sets the input vector.
    pub fn set_input(&mut self, sampled: &Sampled<'_>, input: u32)
        requires { input < vectors_of sampled.now.plant.now.inputs }
        ensures input { self.new.input ≡ input }
        ensures kept { KeepCentres sampled.now.plant.now self.old self.new }
    {
        let p = sampled.plant;
        let states = p.states();
        let indices = p.input_indices(input);
        for k in 0..p.input_variables() {
            self.values[(states + k) as usize] = p.value_at(k, indices[k as usize]) as i64;
        }
        self.input = input;
    }

    /// The values in the lanes.
    #[tactic(auto, using(crate::proofs::LineValues::lanes_of))]
    pub(crate) fn lanes(&self, p: &Plant) -> ValuesAlong<'_>
        ensures { (cell : ℕ → ℕ) → AreCentresOf p.now cell self.now → AreValuesUnder p.now cell self.now.input result }
    {
        ValuesAlong {
            values: &self.values[..p.variables() as usize],
            along: self.along,
            column: &self.column,
        }
    }
}

/// The middles of so many indices from one on, and the last of them in the lanes past it.
fn middles(first: i64, width: i64, index: u32, cells: usize) -> [i64; LANES]
    requires some { 1 ≤ cells }
    requires fits { (places : ℕ) → places < cells → HasMiddleAfter first width index places }
    ensures { HoldsInLanes (pos 0) (λ lane. middle_after first width index (min lane (cells - 1))) result }
{
    let mut middles = [0; LANES];
    for j in 0..LANES {
        middles[j] = middle(first, width, index + j.min(cells - 1) as u32);
    }
    middles
}

/// The number of the input vector whose values have these indices, which stand after those of the states.
fn input_number(p: &Plant, indices: &[u32; INDICES_LIMIT]) -> u32
    requires plant { IsWithinLimits p.now }
    requires indices { (u : ℕ) × AreInputIndices p.now indices.now u }
    ensures { AreInputIndices p.now indices.now result }
{
    p.input_number(&indices[p.states() as usize..])
}

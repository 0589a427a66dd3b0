//! Where a cell's box lies along the axis of a state.

ghost use Rattle.std.specs.Prelude.{◌≡◌, ◌<◌, ◌+ℤ◌, ◌-ℤ◌, length};
ghost use Rattle.interval_eval.specs.Span.{span_of};
ghost use Rattle.plant_record.specs.Steps.{equation_at};
ghost use Rattle.successor_box.specs.SuccessorBoxes.{cell_area_of, intersection_of};
ghost use Rattle.successor_box.specs.PairExtents.{IsExtentAt};
ghost use Rattle.successor_box.specs.inside.Lines.{IsPair, IsSomeValue, deviation_along, value_at, next_interval_at};

use crate::area::cell_area;
use crate::noise_centres::noise_centres;
use crate::sampled::Sampled;
use grid_quantiser::Extent;
use interval_eval::{Interval, span};
use plant_record::{PlantVersion, step_along};

impl Sampled<'_> {
    /// The extent of a successor box along the axis of a state: None where one of its ends leaves the axis.
    /// It takes no memory.
    pub(crate) fn extent(&self, c: u32, input: u32, state: u32) -> Option<Extent>
        requires pair { IsPair self.now.plant.now c input }
        requires state { state < length self.now.plant.now.equations }
        ensures { IsExtentAt self.now.plant.now c input state result }
    {
        let p = self.plant;
        let next_interval = self.next_interval(c, input, state);
        p.grid().extent(state, next_interval.lo, next_interval.hi)
    }

    /// Where an equation leads from a cell.
    #[tactic(auto, using(crate::proofs::NextIntervals::growth_is))]
    fn next_interval(&self, c: u32, input: u32, state: u32) -> Interval
        requires pair { IsPair self.now.plant.now c input }
        requires state { state < length self.now.plant.now.equations }
        ensures { result ≡ next_interval_at self.now.plant.now state c input }
    {
        let next = self.next_along(c, input, state);
        let growth = self.growth(next, input, state);
        match self.plant.plant_version() {
            PlantVersion::One => growth,
            PlantVersion::Two => intersection(growth, self.cell_span(c, input, state)),
        }
    }

    /// The value of an equation at a cell's centre, less and plus how far it moves within the cell.
    #[inline]
    pub(crate) fn growth(&self, next: i128, input: u32, state: u32) -> Interval
        requires state { state < length self.now.plant.now.equations }
        requires next { IsSomeValue self.now.plant.now state input next }
        ensures low { result.lo ≡ next -ℤ deviation_along self.now.plant.now state input }
        ensures high { result.hi ≡ next +ℤ deviation_along self.now.plant.now state input }
    {
        let deviation = self.slopes.of(state, input);
        Interval {
            lo: next - deviation,
            hi: next + deviation,
        }
    }

    /// The span of an equation over a cell.
    #[tactic(auto, using(crate::proofs::CellRanges::cell_stays, crate::proofs::CellRanges::equation_is, crate::proofs::CellRanges::formed_at, crate::proofs::CellOffsets::cell_area_long))]
    fn cell_span(&self, c: u32, input: u32, state: u32) -> Interval
        requires pair { IsPair self.now.plant.now c input }
        requires state { state < length self.now.plant.now.equations }
        ensures { result ≡ span_of (equation_at self.now.plant.now state) (cell_area_of self.now.plant.now c input) }
    {
        let p = self.plant;
        let count = p.variables() as usize;
        match span(p.equation(state), &cell_area(p, c, input)[..count]) {
            Some(ends) => ends,
            None => unreachable!(),
        }
    }

    /// One state of the next from the centre of a cell, at the noises' centres.
    #[inline]
    pub(crate) fn next_along(&self, c: u32, input: u32, state: u32) -> i128
        requires pair { IsPair self.now.plant.now c input }
        requires state { state < length self.now.plant.now.equations }
        ensures { result ≡ value_at self.now.plant.now state c input }
    {
        let p = self.plant;
        let centre = p.grid().centre(c);
        match step_along(p, &centre, input, &noise_centres(p), state) {
            Some(next) => next,
            None => unreachable!(),
        }
    }
}

/// What two intervals have in common.
#[inline]
pub(crate) fn intersection(a: Interval, b: Interval) -> Interval
    ensures { result ≡ intersection_of a b }
{
    Interval {
        lo: a.lo.max(b.lo),
        hi: a.hi.min(b.hi),
    }
}

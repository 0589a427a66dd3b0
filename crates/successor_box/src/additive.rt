//! Equations to which inputs are only added: their values under one input vector give those under all.
ghost use Rattle.std.specs.Prelude.{ℕ, ◌<◌, length, IfOk, IfSome, IsTrue, IsFalse};
ghost use Rattle.fixed_expr.specs.Expression.{expression_of};
ghost use Rattle.plant_record.specs.Description.{vectors_of};
ghost use Rattle.successor_box.specs.CellLines.{HaveCentres, KeepCentres, AreCentresOf};
ghost use Rattle.successor_box.specs.AdditiveInputs.{AreInputIncrements, IsAdditiveLineOf};
ghost use Rattle.successor_box.specs.inside.Additive.{NamesNoInput, NamesNoState, HasAdditiveInputs};
ghost use Rattle.successor_box.specs.inside.Lines.{IsIncrementTo, AreIncreased};

use crate::cell_line::CellLine;
use crate::sampled::Sampled;
use expr_lanes::eval_along;
use fixed_expr::narrow::narrow;
use fixed_expr::{Expr, LANES};
use plant_record::PlantVersion;
use std::alloc::{AllocError, Global};

/// The values, in each lane of a line under the first input vector, of an equation to which inputs are only added, and how much it
/// goes on from there to each input vector.
#[derive(Clone, Copy)]
pub struct AdditiveLine<'a> {
    pub values: [i64; LANES],
    pub increments: &'a [i64],
}

impl Sampled<'_> {
    /// How much the value of a state's equation goes on from the first input vector to each one. None in version 2, where spans are
    /// wanted too, or where an input may be more than added, or an increment leaves 64 bits. It takes memory for a number for each
    /// vector.
    pub fn input_increments(
        &self,
        alloc: Global,
        state: u32,
    ) -> Result<Option<Vec<i64>>, AllocError>
        requires { state < length self.now.plant.now.equations }
        ensures { IfOk result (λ increments. IfSome increments (λ increments. AreInputIncrements self.now.plant.now state increments.items)) }
    {
        let p = self.plant;
        if p.plant_version() == PlantVersion::Two || !adds_inputs(self, p.equation(state)) {
            return Ok(None);
        }
        let mut increments = Vec::with_capacity(alloc, p.vectors() as usize)?;
        for input in 0..p.vectors() {
            let Some(increment) = self.input_increment(input, state) else {
                return Ok(None);
            };
            increments.push(increment)?;
        }
        Ok(Some(increments))
    }

    /// How much it goes on to an input vector, in the first cell.
    fn input_increment(&self, input: u32, state: u32) -> Option<i64>
        requires state { state < length self.now.plant.now.equations }
        requires input { input < vectors_of self.now.plant.now.inputs }
        ensures { IfSome result (IsIncrementTo self.now.plant.now state input) }
    {
        let first = self.next_along(0, 0, state);
        let value = self.next_along(0, input, state);
        narrow(value.checked_sub(first)?)
    }

    /// The values of an equation with such increments in the cells of a line, which then has the first input vector: None where one
    /// leaves 64 bits.
    pub fn additive_line<'a>(
        &self,
        state: u32,
        increments: Option<&'a [i64]>,
        line: &mut CellLine,
    ) -> Option<AdditiveLine<'a>>
        requires state { state < length self.now.plant.now.equations }
        requires increments { IfSome increments (λ increments. AreInputIncrements self.now.plant.now state increments.now) }
        requires line { HaveCentres self.now.plant.now line.old }
        ensures kept { KeepCentres self.now.plant.now line.old line.new }
        ensures line { (cell : ℕ → ℕ) → AreCentresOf self.now.plant.now cell line.old → IfSome result (IsAdditiveLineOf self.now.plant.now cell state) }
    {
        let increments = increments?;
        let p = self.plant;
        line.set_input(self, 0);
        let mut values = [0; LANES];
        eval_along(p.equation(state), &line.lanes(p), &mut values)?;
        Some(AdditiveLine { values, increments })
    }
}

/// Whether inputs are only added to an expression: it is a sum of parts in which no input variable or no state stands.
fn adds_inputs(sampled: &Sampled<'_>, e: &Expr) -> bool
    ensures { IsTrue result → HasAdditiveInputs sampled.now.plant.now (expression_of e.now) }
{
    if !names_input(sampled, e) || !names_state(sampled, e) {
        return true;
    }
    match e {
        Expr::Add(a, b) | Expr::Sub(a, b) => adds_inputs(sampled, a) && adds_inputs(sampled, b),
        _ => false,
    }
}

/// Whether an input variable stands in an expression.
fn names_input(sampled: &Sampled<'_>, e: &Expr) -> bool
    ensures { IsFalse result → NamesNoInput sampled.now.plant.now (expression_of e.now) }
{
    let p = sampled.plant;
    for k in 0..p.input_variables() {
        if e.mentions(p.states() + k) {
            return true;
        }
    }
    false
}

/// Whether a state stands in an expression.
fn names_state(sampled: &Sampled<'_>, e: &Expr) -> bool
    ensures { IsFalse result → NamesNoState sampled.now.plant.now (expression_of e.now) }
{
    for k in 0..sampled.plant.states() {
        if e.mentions(k) {
            return true;
        }
    }
    false
}

impl AdditiveLine<'_> {
    /// The values in the lanes under an input vector, unless one leaves 64 bits. After None nothing is said of `found`.
    pub(crate) fn values_under(&self, input: u32, found: &mut [i64; LANES]) -> Option<()>
        requires { input < length self.now.increments.now }
        ensures { IfSome result (λ _. AreIncreased self.now input found.new) }
    {
        let increment = self.increments[input as usize];
        for k in 0..LANES {
            found[k] = self.values[k].checked_add(increment)?;
        }
        Some(())
    }
}

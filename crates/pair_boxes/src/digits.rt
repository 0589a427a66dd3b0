//! The digits of a pair on which the extents along a state's axis depend.
ghost use Rattle.std.specs.Prelude.{◌≡◌, ℕ, ◌+◌, ◌*◌, ◌^◌, ◌<◌, length, slice_index, IfOk};
ghost use Rattle.std.specs.List.{All};
ghost use Rattle.plant_record.specs.Description.{vectors_of};
ghost use Rattle.successor_box.specs.PairExtents.{depends_on, index_in};
ghost use Rattle.successor_box.specs.declared.central_value.TheConstants.{INDICES_LIMIT};
ghost use Rattle.pair_boxes.specs.inside.Digits.{AreDigitsOf, AddsIfDependent, KeepsIfIndependent, count_in, slot_at};

use crate::state_of::StateOf;
use plant_record::Plant;
use std::alloc::{AllocError, Global};
use successor_box::{INDICES_LIMIT, Sampled};

/// A state or an input variable that stands in an equation: how many indices it has, and how many slots
/// of a table there are from one index to the next.
#[derive(Clone, Copy)]
pub(crate) struct Digit {
    pub(crate) variable: u32,
    pub(crate) count: u32,
    pub(crate) stride: u32,
}

/// The digits of an equation, and how many slots they make.
#[derive(Drop)]
pub(crate) struct Digits {
    pub(crate) each: Vec<Digit>,
    pub(crate) slots: u32,
}

/// The digits of a state's equation: one for each variable in it on which extents depend. Those of the states are below those
/// of the input variables, and that of the last state is the lowest: from one slot to the next mostly it alone varies.
pub(crate) fn build_digits(alloc: Global, of: &StateOf<'_>) -> Result<Digits, AllocError>
    ensures { IfOk result (λ digits. AreDigitsOf of.now.sampled.plant.now of.now.state digits.each.items digits.slots) }
{
    let p = of.sampled.plant;
    let mut digits = Digits {
        each: Vec::new(alloc),
        slots: 1,
    };
    for variable in (0..p.states()).rev() {
        digits.add(of, variable)?;
    }
    for input in 0..p.input_variables() {
        digits.add(of, p.states() + input)?;
    }
    Ok(digits)
}

impl Digits {
    /// Adds the digit of a variable above the others, if extents depend on it.
    fn add(&mut self, of: &StateOf<'_>, variable: u32) -> Result<(), AllocError>
        requires variable { variable < length of.now.sampled.plant.now.states + length of.now.sampled.plant.now.inputs }
        requires fits { self.old.slots * count_in of.now.sampled.plant.now variable < 2 ^ 32 }
        ensures depends { IfOk result (λ _. AddsIfDependent of.now.sampled.plant.now of.now.state variable self.old self.new) }
        ensures free { IfOk result (λ _. KeepsIfIndependent of.now.sampled.plant.now of.now.state variable self.old self.new) }
    {
        if has_digit(of, variable) {
            let count = count_of(of.sampled.plant, variable);
            self.each.push(Digit {
                variable,
                count,
                stride: self.slots,
            })?;
            self.slots *= count;
        }
        Ok(())
    }
}

/// Whether the extents along a state's axis depend on a variable: it stands in the state's equation, and isn't
/// the state itself where the extents only shift with that.
fn has_digit(of: &StateOf<'_>, variable: u32) -> bool
    ensures { result ≡ depends_on of.now.sampled.plant.now of.now.state variable }
{
    let equation = of.sampled.plant.equation(of.state);
    equation.mentions(variable) && !(equation.shifts_with(of.state) && variable == of.state)
}

/// How many indices a state has, or how many values an input variable.
fn count_of(p: &Plant, variable: u32) -> u32
    requires { variable < length p.now.states + length p.now.inputs }
    ensures { result ≡ count_in p.now variable }
{
    let states = p.states();
    if variable < states {
        p.grid().count(variable)
    } else {
        p.input_values(variable - states)
    }
}

/// The slot that has these indices.
#[inline]
pub(crate) fn slot_of(digits: &[Digit], indices: &[u32; INDICES_LIMIT]) -> u32
    requires variables { All (λ d. d.variable < INDICES_LIMIT) digits.now }
    requires fits { slot_at digits.now (λ k. slice_index indices.now k) < 2 ^ 32 }
    ensures { result ≡ slot_at digits.now (λ k. slice_index indices.now k) }
{
    let mut slot = 0;
    for d in digits {
        slot += indices[d.variable as usize] * d.stride;
    }
    slot
}

/// The indices of a cell and an input vector, in each state and each input variable.
#[inline]
pub(crate) fn indices_of(sampled: &Sampled<'_>, c: u32, input: u32) -> [u32; INDICES_LIMIT]
    requires { input < vectors_of sampled.now.plant.now.inputs }
    ensures { (k : ℕ) → k < length sampled.now.plant.now.states + length sampled.now.plant.now.inputs → slice_index result k ≡ index_in sampled.now.plant.now c input k }
{
    let p = sampled.plant;
    let states = p.states() as usize;
    let along = p.grid().indices(c);
    let among = p.input_indices(input);
    let mut indices = [0; INDICES_LIMIT];
    for k in 0..states + p.input_variables() as usize {
        let index = if k < states {
            along[k]
        } else {
            among[k - states]
        };
        indices[k] = index;
    }
    indices
}

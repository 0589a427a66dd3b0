//! Whether a next state is one to which the plant's equations may lead.

ghost use Rattle.std.specs.Prelude.{◌≡◌, ◌≢◌, ℕ, ◌<◌, ◌↔◌, length, IsTrue, MatchOption};
ghost use Rattle.grid_quantiser.specs.Axes.{cells_of};
ghost use Rattle.plant_record.specs.Description.{axes_of, vector_of, vectors_of};
ghost use Rattle.plant_record.specs.Limits.{IsWithinLimits};
ghost use Rattle.plant_record.specs.ValueIndices.{value_at, value_count};
ghost use Rattle.successor_box.specs.Deviations.{HasNoOverflow, deviations_of};
ghost use Rattle.text_control.specs.Followed.{IsSized, AreVector, IsFollow};
ghost use Rattle.text_control.specs.inside.Slopes.{LiesInBox};

use crate::follow::Follow;
use crate::packed_text::PackedText;
use base::limits::INPUTS_LIMIT;
use plant_record::Plant;
use successor_box::{Slopes, successors};

/// Whether a next state lies in the successor box of the state's cell under the values that were applied. It takes no memory.
pub fn follows(text: &PackedText, state: &[i64], input: &[i64], next: &[i64]) -> Follow
    ensures { IsFollow text.now.plant (record { state = state.now; values = input.now; next = next.now }) result }
{
    let plant = text.plant();
    if !is_sized(plant, state, input, next) {
        return Follow::WrongSizes;
    }
    let Some(cell) = plant.grid().cell_at(state) else {
        return Follow::NoInput;
    };
    let Some(vector) = vector_at(plant, input) else {
        return Follow::NoInput;
    };
    let Some(slopes) = text.slopes() else {
        return Follow::Overflow;
    };
    if lies_in_box(plant, slopes, cell, vector, next) {
        Follow::Inside
    } else {
        Follow::Outside
    }
}

fn is_sized(plant: &Plant, state: &[i64], input: &[i64], next: &[i64]) -> bool
    ensures { IsTrue result ↔ IsSized plant.now (record { state = state.now; values = input.now; next = next.now }) }
{
    let states = plant.states() as usize;
    state.len() == states && input.len() == plant.input_variables() as usize && next.len() == states
}

/// The first input vector with these values.
fn vector_at(plant: &Plant, input: &[i64]) -> Option<u32>
    requires limits { IsWithinLimits plant.now }
    requires sizes { length input.now ≡ length plant.now.inputs }
    ensures { MatchOption result (AreVector plant.now input.now → ⊥) (λ u. (u < vectors_of plant.now.inputs) × (input.now ≡ vector_of plant.now.inputs u)) }
{
    let mut indices = [0; INPUTS_LIMIT];
    for variable in 0..input.len() {
        indices[variable] = index_of(plant, variable as u32, input[variable])?;
    }
    Some(plant.input_number(&indices))
}

/// The first index of a value among those of an input variable.
fn index_of(plant: &Plant, variable: u32, value: i64) -> Option<u32>
    requires { variable < length plant.now.inputs }
    ensures { MatchOption result ((k : ℕ) → k < value_count plant.now.inputs variable → value_at plant.now.inputs variable k ≢ value) (λ k. (k < value_count plant.now.inputs variable) × (value_at plant.now.inputs variable k ≡ value)) }
{
    for index in 0..plant.input_values(variable) {
        if plant.value_at(variable, index) == i128::from(value) {
            return Some(index);
        }
    }
    None
}

/// Whether a state lies in the box of a cell under an input vector.
fn lies_in_box(plant: &Plant, slopes: &Slopes, cell: u32, vector: u32, next: &[i64]) -> bool
    requires slopes { slopes.now ≡ deviations_of plant.now }
    requires fits { HasNoOverflow plant.now }
    requires cell { cell < cells_of (axes_of plant.now) }
    requires vector { vector < vectors_of plant.now.inputs }
    requires sizes { length next.now ≡ length plant.now.states }
    ensures { IsTrue result ↔ LiesInBox plant.now cell vector next.now }
{
    let Some(b) = successors(plant, slopes, cell, vector) else {
        return false;
    };
    match plant.grid().cell_at(next) {
        Some(there) => plant.grid().box_has(b, there),
        None => false,
    }
}

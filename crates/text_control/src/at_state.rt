//! The inputs at a state.

ghost use Rattle.std.specs.Prelude.{◌≡◌, ◌<◌, ◌↔◌, length, Some, None, IsTrue, IsFalse};
ghost use Rattle.plant_record.specs.Description.{vector_of, vectors_of};
ghost use Rattle.plant_record.specs.Limits.{IsWithinLimits};
ghost use Rattle.text_control.specs.Control.{AreSized, applied_as, IsReply, IsReplyByText};

use crate::packed_text::PackedText;
use crate::reply::Reply;
use crate::rows::row_at;
use controller_table::{TextKind, has_arrived};
use game_core::Row;
use plant_record::Plant;

/// Puts what is to be applied at the state into the inputs.
pub fn control(text: &PackedText, state: &[i64], input: &mut [i64]) -> Reply
    ensures reply { IsReply text.now state.now input.old input.new result }
    ensures text { IsReplyByText text.now state.now input.new result }
{
    if !are_sized(text, state, input) {
        return Reply::WrongSizes;
    }
    let Some(row) = row_at(text, state) else {
        return Reply::NoRow;
    };
    if !applies(text, row) {
        return Reply::Arrived;
    }
    apply(text.plant(), row.input, input);
    Reply::Apply
}

fn are_sized(text: &PackedText, state: &[i64], input: &[i64]) -> bool
    ensures { IsTrue result ↔ AreSized text.now state.now input.now }
{
    let plant = text.plant();
    state.len() == plant.states() as usize && input.len() == plant.input_variables() as usize
}

/// Whether a row's input is applied: it is, but for rank 0 of a table that brings a plant to its targets.
fn applies(text: &PackedText, row: Row) -> bool
    ensures some { IsTrue result → applied_as text.now.kind text.now.plant.goal row ≡ Some row.input }
    ensures none { IsFalse result → (row.rank ≡ 0) × (applied_as text.now.kind text.now.plant.goal row ≡ None) }
{
    match text.kind() {
        TextKind::Table(_) => !has_arrived(text.plant().goal(), row),
        TextKind::Stay | TextKind::Patrol => true,
    }
}

/// Puts the values of an input vector into the inputs.
fn apply(plant: &Plant, vector: u32, input: &mut [i64])
    requires limits { IsWithinLimits plant.now }
    requires vector { vector < vectors_of plant.now.inputs }
    requires sizes { length input.old ≡ length plant.now.inputs }
    ensures { input.new ≡ vector_of plant.now.inputs vector }
{
    let indices = plant.input_indices(vector);
    for j in 0..input.len() {
        input[j] = plant.value_at(j as u32, indices[j]) as i64;
    }
}

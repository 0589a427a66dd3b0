//! The turns of a patrol.

ghost use Rattle.std.specs.Prelude.{◌≡◌, ◌<◌, ◌≤◌, ◌↔◌, length, IsTrue, IsFalse, MatchOption};
ghost use Rattle.grid_quantiser.specs.Axes.{cells_of};
ghost use Rattle.plant_record.specs.Description.{axes_of};
ghost use Rattle.plant_record.specs.Limits.{IsWithinLimits};
ghost use Rattle.turn_rows.specs.Targets.{IsInTarget};
ghost use Rattle.text_control.specs.Visits.{with_turn, HasArrivedInTurn, BeginsAt, IsVisit, IsVisitByText};

use crate::packed_text::PackedText;
use crate::visits::Visit;
use controller_table::TextKind;
use plant_record::Plant;

/// Begins the next turn where the state is an arrival of a patrol.
pub fn visit(text: &mut PackedText, state: &[i64]) -> Visit
    ensures visit { IsVisit text.old state.now text.new result }
    ensures text { IsVisitByText text.old state.now text.new result }
{
    if state.len() != text.plant().states() as usize {
        return Visit::WrongSize;
    }
    match turn_from(text, state) {
        Some(turn) => {
            text.set_turn(turn);
            Visit::Next
        }
        None => Visit::Same,
    }
}

/// Makes a turn due, as after a restart of the loop. False where there is no such turn.
pub fn begin_turn(text: &mut PackedText, turn: u32) -> bool
    ensures begun { IsTrue result → (turn < length text.old.turns) × (text.new ≡ with_turn text.old turn) }
    ensures unknown { IsFalse result → (length text.old.turns ≤ turn) × (text.new ≡ text.old) }
{
    if turn as usize >= text.turns() {
        return false;
    }
    text.set_turn(turn);
    true
}

/// The turn that begins at a state, if the state is an arrival.
#[tactic(auto, using(controller_table::proofs::RowsAtStates::row_inside, controller_table::proofs::RowsAtStates::in_cell))]
fn turn_from(text: &PackedText, state: &[i64]) -> Option<u32>
    requires { length state.now ≡ length text.now.plant.states }
    ensures { MatchOption result (HasArrivedInTurn text.now state.now → ⊥) (BeginsAt text.now state.now) }
{
    let TextKind::Patrol = text.kind() else {
        return None;
    };
    let plant = text.plant();
    let cell = plant.grid().cell_at(state)?;
    if !is_in_target(plant, text.turn(), cell) {
        return None;
    }
    let next = (text.turn() + 1) % plant.targets();
    text.row(next, cell)?;
    Some(next)
}

/// Whether a cell counts for the target of a turn: all its points lie in the target, and none in an obstacle.
fn is_in_target(plant: &Plant, turn: u32, cell: u32) -> bool
    requires limits { IsWithinLimits plant.now }
    requires cell { cell < cells_of (axes_of plant.now) }
    ensures { IsTrue result ↔ IsInTarget plant.now turn cell }
{
    if turn >= plant.targets() || plant.obstacle_cell(cell) {
        return false;
    }
    let (low, high) = plant.target(turn);
    plant.grid().inside(cell, &low, &high)
}

//! The row and the rank at a state.

ghost use Rattle.std.specs.Prelude.{◌≡◌, ◌<◌, length, IfSome, MatchOption};
ghost use Rattle.plant_record.specs.Description.{vectors_of};
ghost use Rattle.text_control.specs.Control.{due_row, IsRank, IsUnranked};

use crate::packed_text::PackedText;
use game_core::Row;

/// The row of the state's cell for the turn that is due.
#[tactic(auto, using(controller_table::proofs::RowsAtStates::row_inside, controller_table::proofs::RowsAtStates::no_row_outside))]
pub fn row_at(text: &PackedText, state: &[i64]) -> Option<Row>
    requires { length state.now ≡ length text.now.plant.states }
    ensures row { result ≡ due_row text.now state.now }
    ensures fits { IfSome result (λ row. row.input < vectors_of text.now.plant.inputs) }
{
    let cell = text.plant().grid().cell_at(state)?;
    text.row(text.turn(), cell)
}

/// The rank of that row.
pub fn rank_at(text: &PackedText, state: &[i64]) -> Option<u32>
    requires { length state.now ≡ length text.now.plant.states }
    ensures { MatchOption result (IsUnranked text.now state.now) (IsRank text.now state.now) }
{
    Some(row_at(text, state)?.rank)
}

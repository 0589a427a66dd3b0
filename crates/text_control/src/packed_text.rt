ghost use Rattle.std.specs.Prelude.{◌≡◌, ◌<◌, length, IfOk, IfSome, MatchOption};
ghost use Rattle.grid_quantiser.specs.Axes.{cells_of};
ghost use Rattle.game_core.specs.Solution.{row_of};
ghost use Rattle.plant_record.specs.Description.{axes_of, vectors_of};
ghost use Rattle.plant_record.specs.Limits.{IsWithinLimits};
ghost use Rattle.turn_rows.specs.Rows.{rows_for};
ghost use Rattle.text_control.specs.inside.TextReading.{of_text};
ghost use Rattle.text_control.specs.Visits.{with_turn};
ghost use Rattle.text_control.specs.inside.Slopes.{AreSlopes};
ghost use Rattle.successor_box.specs.Deviations.{HasNoOverflow, deviations_of};

use crate::packed_rows::PackedRows;
use base::NoMemory;
use controller_table::{RowsText, TextKind};
use game_core::Row;
use plant_record::Plant;
use std::alloc::Global;
use std::marker::Model;
use successor_box::{SlopeFault, Slopes, find_slopes};

/// What a table, a stay text or a patrol text says, in little memory: its rows take 8 bytes for each stretch of cells with
/// one row or with none. Of a patrol it keeps which turn is due. For successor boxes it keeps how far the plant's equations move
/// within a cell, where none overflows.
#[derive(Drop)]
pub struct PackedText {
    kind: TextKind,
    plant: Plant,
    slopes: Option<Slopes>,
    turns: Vec<PackedRows>,
    turn: u32,
}

impl Model for PackedText {
    ghost use Rattle.std.specs.Coded.{codes};
    ghost use Rattle.fixed_expr.specs.inside.Postfix.{expression_code};
    ghost use Rattle.text_control.specs.Texts.{TextModel};
    ghost use Rattle.text_control.specs.inside.Slopes.{HoldsText};

    ghost Value = { TextModel };

    ghost coded = { Prim.hlevel (codes, expression_code) };

    ghost view = { λ t. record { kind = t.kind; plant = t.plant; turns = t.turns.items; turn = t.turn } };

    ghost invariant = { λ t. HoldsText (record { kind = t.kind; plant = t.plant; turns = t.turns.items }) t.slopes };
}

impl PackedText {
    /// What a text says; of a patrol the first turn is due.
    pub(crate) fn of(alloc: Global, text: RowsText) -> Result<PackedText, NoMemory>
        ensures { IfOk result (λ packed. packed ≡ of_text text) }
    {
        let (kind, plant, rows) = text.into_parts();
        let mut turns = Vec::with_capacity(alloc, rows.turns() as usize)?;
        for turn in 0..rows.turns() {
            let rows = PackedRows::new(alloc, rows.turn(turn))?;
            turns.push(rows).map_err(|_| NoMemory)?;
        }
        let slopes = slopes_of(alloc, &plant)?;
        Ok(PackedText {
            kind,
            plant,
            slopes,
            turns,
            turn: 0,
        })
    }

    /// Which text it is.
    pub fn kind(&self) -> TextKind
        ensures { result ≡ self.now.kind }
    {
        self.kind
    }

    /// The plant whose cells have the rows.
    pub fn plant(&self) -> &Plant
        ensures plant { result.now ≡ self.now.plant }
        ensures limits { IsWithinLimits result.now }
    {
        &self.plant
    }

    /// How far the equations of the plant move within a cell: None where one overflows.
    pub(crate) fn slopes(&self) -> Option<&Slopes>
        ensures { MatchOption result (HasNoOverflow self.now.plant → ⊥) (λ s. (s.now ≡ deviations_of self.now.plant) × HasNoOverflow self.now.plant) }
    {
        self.slopes.as_ref()
    }

    /// The turn that is due, from 0.
    pub fn turn(&self) -> u32
        ensures { result ≡ self.now.turn }
    {
        self.turn
    }

    /// How many turns there are.
    pub fn turns(&self) -> usize
        ensures { result ≡ length self.now.turns }
    {
        self.turns.len()
    }

    /// None where the cell has no row for the turn, or there is no such turn.
    pub(crate) fn row(&self, turn: u32, cell: u32) -> Option<Row>
        requires { cell < cells_of (axes_of self.now.plant) }
        ensures row { result ≡ row_of (rows_for self.now.turns turn) cell }
        ensures fits { IfSome result (λ row. row.input < vectors_of self.now.plant.inputs) }
    {
        self.turns.get(turn as usize)?.row(cell)
    }

    /// Begins another turn.
    pub(crate) fn set_turn(&mut self, turn: u32)
        ensures { self.new ≡ with_turn self.old turn }
    {
        self.turn = turn;
    }
}

/// How far the equations of a plant move within a cell: None where one overflows.
fn slopes_of(alloc: Global, plant: &Plant) -> Result<Option<Slopes>, NoMemory>
    ensures { IfOk result (AreSlopes plant.now) }
{
    match find_slopes(alloc, plant) {
        Ok(slopes) => Ok(Some(slopes)),
        Err(SlopeFault::Overflow { .. }) => Ok(None),
        Err(SlopeFault::Memory) => Err(NoMemory),
    }
}

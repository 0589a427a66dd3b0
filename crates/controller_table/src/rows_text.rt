ghost use Rattle.std.specs.Prelude.{◌≡◌, [], ◌∷◌, IfOk};
ghost use Rattle.controller_table.specs.KindTexts.{bytes_of_rows, IsOfWrittenVersion, HoldsRows};

use crate::rows_writer::RowsWriter;
use crate::text_kind::TextKind;
use base::NoMemory;
use game_core::Answer;
use plant_record::Plant;
use std::alloc::Global;
use std::marker::Model;
use turn_rows::PatrolRows;

/// What a text says: its kind, a plant, and for each turn the rows of its cells. A table and a stay text have one turn.
#[derive(Drop)]
pub struct RowsText {
    kind: TextKind,
    plant: Plant,
    turns: PatrolRows,
}

impl Model for RowsText {
    ghost use Rattle.std.specs.Coded.{codes};
    ghost use Rattle.fixed_expr.specs.inside.Postfix.{expression_code};
    ghost use Rattle.controller_table.specs.KindTexts.{RowsModel, HoldsRows};

    ghost Value = { RowsModel };

    ghost coded = { Prim.hlevel (codes, expression_code) };

    ghost view = { λ t. record { kind = t.kind; plant = t.plant; turns = t.turns } };

    ghost invariant = { λ t. HoldsRows (record { kind = t.kind; plant = t.plant; turns = t.turns }) };
}

impl RowsText {
    /// A text with these rows for each turn.
    pub fn new(kind: TextKind, plant: Plant, turns: PatrolRows) -> RowsText
        requires { HoldsRows (record { kind = kind; plant = plant; turns = turns }) }
        ensures { result ≡ record { kind = kind; plant = plant; turns = turns } }
    {
        RowsText { kind, plant, turns }
    }

    /// A text of one turn.
    pub fn of_one_turn(
        alloc: Global,
        kind: TextKind,
        plant: Plant,
        rows: Answer,
    ) -> Result<RowsText, NoMemory>
        requires { HoldsRows (record { kind = kind; plant = plant; turns = rows ∷ [] }) }
        ensures { IfOk result (λ t. t ≡ record { kind = kind; plant = plant; turns = rows ∷ [] }) }
    {
        let turns = Vec::from_array(alloc, [rows]).map_err(|_| NoMemory)?;
        Ok(RowsText::new(kind, plant, PatrolRows::new(turns)))
    }

    /// The writer of the text. It takes all its memory here.
    pub fn writer(&self, alloc: Global) -> Result<RowsWriter<'_>, NoMemory>
        requires { IsOfWrittenVersion self.now }
        ensures { IfOk result (λ w. w ≡ bytes_of_rows self.now) }
    {
        RowsWriter::new(alloc, self.kind, &self.plant, self.turns.as_slice())
    }

    /// Kind, plant and rows alone.
    pub fn into_parts(self) -> (TextKind, Plant, PatrolRows)
        ensures parts { record { kind = result.0; plant = result.1; turns = result.2 } ≡ self }
        ensures holds { HoldsRows self }
    {
        (self.kind, self.plant, self.turns)
    }
}

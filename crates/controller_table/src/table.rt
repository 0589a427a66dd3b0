ghost use Rattle.std.specs.Prelude.{◌≡◌, ◌<◌, [], ◌∷◌, count_by, IfOk};
ghost use Rattle.std.specs.Option.{is_some};
ghost use Rattle.grid_quantiser.specs.Axes.{cells_of};
ghost use Rattle.game_core.specs.Solution.{row_of};
ghost use Rattle.plant_record.specs.Description.{axes_of};
ghost use Rattle.plant_record.specs.Limits.{IsWithinLimits};
ghost use Rattle.controller_table.specs.TableText.{version_number, written_version};
ghost use Rattle.controller_table.specs.KindTexts.{table_text, bytes_of_rows, IsOfWrittenVersion};
ghost use Rattle.controller_table.specs.Tables.{RowsFit};
ghost use Rattle.controller_table.specs.Choice.{row_at, choice_at};

use crate::goal_format::has_arrived;
use crate::rows_text::RowsText;
use crate::table_copy::{copy_answer, copy_plant};
use crate::text_kind::TextKind;
use base::NoMemory;
use game_core::{Answer, Row};
use grid_quantiser::Point;
use plant_record::Plant;
use row_runs::TableVersion;
use std::alloc::Global;
use std::marker::Model;

/// A plant with a row that fits it for some of its cells.
#[derive(Drop)]
pub struct Table {
    version: TableVersion,
    plant: Plant,
    answer: Answer,
    /// How many cells have a row.
    rows: u32,
}

impl Model for Table {
    ghost use Rattle.std.specs.Coded.{codes};
    ghost use Rattle.std.specs.Prelude.{◌≡◌, count_by};
    ghost use Rattle.std.specs.Option.{is_some};
    ghost use Rattle.fixed_expr.specs.inside.Postfix.{expression_code};
    ghost use Rattle.plant_record.specs.Limits.{IsWithinLimits};
    ghost use Rattle.controller_table.specs.Tables.{TableModel, RowsFit};

    ghost Value = { TableModel };

    ghost coded = { Prim.hlevel (codes, expression_code) };

    ghost view = { λ t. record { version = t.version; plant = t.plant; rows = t.answer } };

    ghost invariant = { λ t. IsWithinLimits t.plant × RowsFit t.plant t.answer × (t.rows ≡ count_by is_some t.answer) };
}

impl Table {
    /// What the text of a table says.
    pub(crate) fn of(version: TableVersion, text: RowsText) -> Table
        requires { text.kind ≡ TextKind.Table version }
        ensures table { (result.version ≡ version) × (result.plant ≡ text.plant) }
        ensures rows { text.turns ≡ result.rows ∷ [] }
    {
        let (_, plant, turns) = text.into_parts();
        let answer = turns.into_only();
        let rows = answer.row_count();
        Table {
            version,
            plant,
            answer,
            rows,
        }
    }

    /// The plant whose cells have the rows.
    pub fn plant(&self) -> &Plant
        ensures { result.now ≡ self.now.plant }
    {
        &self.plant
    }

    /// The version of the text that it was read from: 1 or 2.
    pub fn version(&self) -> u32
        ensures { result ≡ version_number self.now.version }
    {
        match self.version {
            TableVersion::First => 1,
            TableVersion::Second => 2,
        }
    }

    /// How many cells have a row.
    pub fn rows(&self) -> u32
        ensures count { result ≡ count_by is_some self.now.rows }
        ensures fit { RowsFit self.now.plant self.now.rows }
    {
        self.rows
    }

    /// None where the cell has no row.
    pub fn row(&self, c: u32) -> Option<Row>
        requires { c < cells_of (axes_of self.now.plant) }
        ensures { result ≡ row_of self.now.rows c }
    {
        self.answer.row(c)
    }

    /// The row of the cell in which a state lies.
    #[tactic(auto, using(crate::proofs::RowsAtStates::row_inside, crate::proofs::RowsAtStates::no_row_outside))]
    pub fn row_at(&self, x: &Point) -> Option<Row>
        ensures { result ≡ row_at self.now.plant self.now.rows x.now }
    {
        let cell = self.plant.grid().cell_of(x)?;
        self.row(cell)
    }

    /// The input to apply at a state.
    pub fn choice(&self, x: &Point) -> Option<u32>
        ensures { result ≡ choice_at self.now.plant self.now.rows x.now }
    {
        let row = self.row_at(x)?;
        if has_arrived(self.plant.goal(), row) {
            return None;
        }
        Some(row.input)
    }

    /// An equal table.
    pub fn copy(&self, alloc: Global) -> Result<Table, NoMemory>
        ensures { IfOk result (λ copy. copy ≡ self.now) }
    {
        Ok(Table {
            version: self.version,
            plant: copy_plant(alloc, &self.plant)?,
            answer: copy_answer(alloc, &self.answer)?,
            rows: self.rows,
        })
    }

    /// The text of the table, in the version that is written.
    pub fn into_text(self, alloc: Global) -> Result<RowsText, NoMemory>
        ensures written { IfOk result IsOfWrittenVersion }
        ensures text { IfOk result (λ t. bytes_of_rows t ≡ table_text written_version self.plant self.rows) }
    {
        let kind = TextKind::Table(TableVersion::Second);
        RowsText::of_one_turn(alloc, kind, self.plant, self.answer)
    }

    /// An optional row for each cell.
    pub fn answer(&self) -> &Answer
        ensures rows { result.now ≡ self.now.rows }
        ensures fit { RowsFit self.now.plant result.now }
    {
        &self.answer
    }
}

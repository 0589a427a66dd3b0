ghost use Rattle.std.specs.Prelude.{◌≡◌, length};
ghost use Rattle.plant_record.specs.Limits.{IsWithinLimits};
ghost use Rattle.controller_table.specs.declared.text_kind.TextKind.TheVariants.{Patrol};
ghost use Rattle.row_reading.specs.RowsTexts.{AreTurnsWithin};
ghost use Rattle.controller_table.specs.TextKinds.{turn_rules, HasFewTurns};

use controller_table::RowsText;
use plant_record::Plant;
use std::marker::Model;
use turn_rows::PatrolRows;

/// What a patrol text says: a plant with few enough turns, and for each turn a row that fits it for some of its cells.
#[derive(Drop)]
pub struct PatrolTable {
    plant: Plant,
    rows: PatrolRows,
}

impl Model for PatrolTable {
    ghost use Rattle.std.specs.Coded.{codes};
    ghost use Rattle.fixed_expr.specs.inside.Postfix.{expression_code};
    ghost use Rattle.plant_record.specs.Limits.{IsWithinLimits};
    ghost use Rattle.row_reading.specs.RowsTexts.{AreTurnsWithin};
    ghost use Rattle.controller_table.specs.declared.text_kind.TextKind.TheVariants.{Patrol};
    ghost use Rattle.controller_table.specs.TextKinds.{turn_rules, HasFewTurns};
    ghost use Rattle.temporal_texts.specs.PatrolText.{PatrolModel};

    ghost Value = { PatrolModel };

    ghost coded = { Prim.hlevel (codes, expression_code) };

    ghost view = { λ t. record { plant = t.plant; rows = t.rows } };

    ghost invariant = { λ t. IsWithinLimits t.plant × HasFewTurns t.plant × AreTurnsWithin (turn_rules Patrol t.plant) t.rows };
}

impl PatrolTable {
    /// What a patrol text says.
    pub(crate) fn of(text: RowsText) -> PatrolTable
        requires { text.kind ≡ Patrol }
        ensures { result ≡ record { plant = text.plant; rows = text.turns } }
    {
        let (_, plant, rows) = text.into_parts();
        PatrolTable { plant, rows }
    }

    /// The plant whose cells have the rows.
    pub fn plant(&self) -> &Plant
        ensures plant { result.now ≡ self.now.plant }
        ensures limits { IsWithinLimits result.now }
        ensures few { HasFewTurns result.now }
    {
        &self.plant
    }

    /// The rows of all turns.
    pub fn answers(&self) -> &PatrolRows
        ensures rows { result.now ≡ self.now.rows }
        ensures fit { AreTurnsWithin (turn_rules Patrol self.now.plant) result.now }
    {
        &self.rows
    }

    /// How many turns there are: as many as targets.
    pub fn turns(&self) -> u32
        ensures { result ≡ length self.now.plant.targets }
    {
        self.rows.turns()
    }
}

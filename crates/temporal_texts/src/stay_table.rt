ghost use Rattle.std.specs.Prelude.{◌≡◌, [], ◌∷◌};
ghost use Rattle.plant_record.specs.Limits.{IsWithinLimits};
ghost use Rattle.controller_table.specs.declared.text_kind.TextKind.TheVariants.{Stay};
ghost use Rattle.row_reading.specs.RowsTexts.{AreRowsWithin};
ghost use Rattle.controller_table.specs.TextKinds.{stay_rules};

use controller_table::RowsText;
use game_core::Answer;
use plant_record::Plant;
use std::marker::Model;

/// What a stay text says: a plant, and for some of its cells a row that fits it.
#[derive(Drop)]
pub struct StayTable {
    plant: Plant,
    answer: Answer,
}

impl Model for StayTable {
    ghost use Rattle.std.specs.Coded.{codes};
    ghost use Rattle.fixed_expr.specs.inside.Postfix.{expression_code};
    ghost use Rattle.plant_record.specs.Limits.{IsWithinLimits};
    ghost use Rattle.row_reading.specs.RowsTexts.{AreRowsWithin};
    ghost use Rattle.controller_table.specs.TextKinds.{stay_rules};
    ghost use Rattle.temporal_texts.specs.StayText.{StayModel};

    ghost Value = { StayModel };

    ghost coded = { Prim.hlevel (codes, expression_code) };

    ghost view = { λ t. record { plant = t.plant; rows = t.answer } };

    ghost invariant = { λ t. IsWithinLimits t.plant × AreRowsWithin (stay_rules t.plant) t.answer };
}

impl StayTable {
    /// What a stay text says.
    pub(crate) fn of(text: RowsText) -> StayTable
        requires { text.kind ≡ Stay }
        ensures plant { result.plant ≡ text.plant }
        ensures rows { text.turns ≡ result.rows ∷ [] }
    {
        let (_, plant, turns) = text.into_parts();
        StayTable {
            plant,
            answer: turns.into_only(),
        }
    }

    /// The plant whose cells have the rows.
    pub fn plant(&self) -> &Plant
        ensures plant { result.now ≡ self.now.plant }
        ensures limits { IsWithinLimits result.now }
    {
        &self.plant
    }

    /// The rows of all cells.
    pub fn answer(&self) -> &Answer
        ensures rows { result.now ≡ self.now.rows }
        ensures fit { AreRowsWithin (stay_rules self.now.plant) result.now }
    {
        &self.answer
    }
}

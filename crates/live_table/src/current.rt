ghost use Rattle.std.specs.Prelude.{◌≡◌};
ghost use Rattle.live_table.specs.Publishes.{EndsWith, LastChooses};

use crate::prefix::Prefix;
use controller_table::Table;
use grid_quantiser::Point;
use std::marker::Model;

/// A table in force, the last of the publishes so far. Seen as these.
#[derive(Drop)]
pub(crate) struct Current {
    table: Table,
    prefix: Prefix,
}

impl Model for Current {
    ghost use Rattle.std.specs.Coded.{codes};
    ghost use Rattle.fixed_expr.specs.inside.Postfix.{expression_code};
    ghost use Rattle.live_table.specs.Publishes.{Published, EndsWith};

    ghost Value = { Published };

    ghost coded = { Prim.hlevel (codes, expression_code) };

    ghost view = { λ f. f.prefix };

    ghost invariant = { λ f. EndsWith f.prefix.list f.table };
}

impl Current {
    pub(crate) fn new(table: Table, prefix: Prefix) -> Current
        requires { EndsWith prefix.list table }
        ensures { result ≡ prefix }
    {
        Current { table, prefix }
    }

    /// The publishes so far.
    pub(crate) fn prefix(&self) -> Prefix
        ensures { result ≡ self.now }
    {
        self.prefix.again()
    }

    pub(crate) fn choice(&self, x: &Point) -> Option<u32>
        ensures { LastChooses self.now.list x.now result }
    {
        self.table.choice(x)
    }
}

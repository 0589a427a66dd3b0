ghost use Rattle.std.specs.Prelude.{◌≡◌};
ghost use Rattle.live_table.specs.Publishes.{newcomer};

use crate::copy::CopyReader;
use crate::prefix::Prefix;
use crate::reader::Reader;
use std::marker::Model;

/// All that was published when it was made, for a reader to learn.
///
/// Seen as the opening and the tables. It has a slot of its own among the readers, since a slot forgets which
/// copies it is of: a reader learns by going over to this one.
#[derive(Drop)]
pub struct Told {
    pub(crate) copies: CopyReader,
    pub(crate) prefix: Prefix,
}

impl Model for Told {
    ghost use Rattle.std.specs.Coded.{codes};
    ghost use Rattle.fixed_expr.specs.inside.Postfix.{expression_code};
    ghost use Rattle.left_right.specs.Sides.{view as known};
    ghost use Rattle.live_table.specs.Publishes.{Published};
    ghost use Rattle.live_table.specs.inside.LiveProtocol.{Covers};

    ghost Value = { Published };

    ghost coded = { Prim.hlevel (codes, expression_code) };

    ghost view = { λ t. t.prefix };

    ghost invariant = { λ t. Covers (known t.copies.place) t.prefix };
}

impl Told {
    /// A reader that has seen all this.
    pub(crate) fn seated(self) -> Reader
        ensures { result ≡ newcomer self }
    {
        let Told { copies, prefix } = self;
        Reader {
            copies,
            seen: prefix.again(),
            told: prefix,
        }
    }
}

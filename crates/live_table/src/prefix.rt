//! A prefix of the list of publishes of one opening.

ghost use Rattle.std.specs.Prelude.{◌≡◌, length, MatchBool};
ghost use mathlib.Core.List.{IsPrefix};

use crate::history::HistoryRule;
use controller_table::Table;
use logbook::Seen;
use std::marker::Model;

/// Seen as the opening and the tables. The tables themselves lie elsewhere: this is their number.
#[derive(Drop)]
pub(crate) struct Prefix {
    pub(crate) count: u32,
    pub(crate) seen: Seen<Table, u64, HistoryRule>,
}

impl Model for Prefix {
    ghost use Rattle.std.specs.Coded.{codes};
    ghost use Rattle.fixed_expr.specs.inside.Postfix.{expression_code};
    ghost use Rattle.std.specs.Prelude.{◌≡◌, ◌<◌, length};
    ghost use Rattle.live_table.specs.Publishes.{Published};

    ghost Value = { Published };

    ghost coded = { Prim.hlevel (codes, expression_code) };

    ghost view = { λ p. record { opening = p.seen.book; list = p.seen.log } };

    ghost invariant = { λ p. (p.count ≡ length p.seen.log) × (0 < p.count) };
}

impl Prefix {
    /// How many tables it has.
    pub(crate) fn count(&self) -> u32
        ensures { result ≡ length self.now.list }
    {
        self.count
    }

    pub(crate) fn again(&self) -> Prefix
        ensures { result ≡ self.now }
    {
        Prefix {
            count: self.count,
            seen: self.seen.again(),
        }
    }

    /// Whether the other begins with it. Two prefixes of one list: else the other begins it.
    pub(crate) fn begins(&self, other: &Prefix) -> bool
        requires { self.now.opening ≡ other.now.opening }
        ensures { MatchBool result (IsPrefix self.now.list other.now.list) (IsPrefix other.now.list self.now.list) }
    {
        let mut both = self.seen.again();
        both.learn(&other.seen);
        self.count <= other.count
    }
}

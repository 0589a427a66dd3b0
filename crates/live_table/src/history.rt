//! The list of publishes of one opening, which only grows. It stands in contracts alone: a program has its length.

ghost use Rattle.std.specs.Prelude.{◌≡◌, ◌+◌, ◌<◌, ◌^◌, [], ◌∷◌, length, IfSome};
ghost use Rattle.live_table.specs.Publishes.{with_table};

use crate::prefix::Prefix;
use controller_table::Table;
use logbook::{Gain, Offer, Opening, Plain, Play, Rule, Seen, Start, Word};
use std::marker::Model;

/// The word of a history counts its tables.
pub(crate) struct HistoryRule;

impl Rule<Table, u64> for HistoryRule {
    ghost use Rattle.std.specs.Prelude.{[]};
    ghost use base.Fml.{ftrue};
    ghost use Rattle.live_table.specs.inside.LiveProtocol.{IsKept};

    ghost holds = { λ cells log. IsKept cells log };

    ghost first = { [] };

    ghost hinted = { λ n log. Unit {0} };

    ghost shows = { λ log. [] };

    ghost keeps = { λ names log. ftrue };

    ghost moves = { λ ask before after answer. Unit {0} };
}

/// Who adds a table trades nothing.
pub(crate) struct NoTrade;

impl Gain<Table, u64> for NoTrade {
    ghost use base.Fml.{ftrue};

    ghost after = { λ names about answer. ftrue };
}

/// The list begins with one table.
pub(crate) struct BeginsWithOne;

impl Opening<Table, Table> for BeginsWithOne {
    ghost use Rattle.std.specs.Prelude.{[], ◌∷◌};

    ghost log = { λ count table. table ∷ [] };
}

/// A step that adds a table.
pub(crate) struct Add;

impl Play<Table, u64> for Add {
    ghost use Rattle.live_table.specs.inside.LiveProtocol.{Adds};

    ghost then = { Adds };
}

impl Plain<Table, Table, u64> for Add {
    ghost use Rattle.std.specs.Prelude.{None};

    ghost ask = { λ table. table };

    ghost state = { λ table. None };
}

/// The right to add to the list. Seen as which opening it is of.
#[derive(Drop)]
pub(crate) struct History {
    head: Word<Table, u64, HistoryRule>,
}

impl Model for History {
    ghost use Rattle.std.specs.Prelude.{◌≡◌};
    ghost use Rattle.logbook.specs.Pages.{Book, book_coded};
    ghost use Rattle.live_table.specs.inside.LiveProtocol.{head_of};

    ghost Value = { Book };

    ghost coded = { book_coded };

    ghost view = { λ h. h.head.book };

    ghost invariant = { λ h. h.head ≡ head_of h.head.book };
}

impl History {
    /// A list of one table.
    pub(crate) fn open(first: &Table) -> (History, Prefix)
        ensures opening { result.1.opening ≡ result.0 }
        ensures list { result.1.list ≡ first.now ∷ [] }
    {
        let (seen, mut pens) = Seen::open_row::<Table, BeginsWithOne>(first, Start::alone(), 1);
        let mut pen = pens.take();
        let head = Word::tracked(0, &mut pen);
        (History { head }, Prefix { count: 1, seen })
    }

    /// Adds a table to the whole list, which is this prefix. None where the list is longer.
    pub(crate) fn add(&self, prefix: &Prefix, table: &Table) -> Option<Prefix>
        requires opening { prefix.now.opening ≡ self.now }
        requires fits { length prefix.now.list + 1 < 2 ^ 32 }
        ensures { IfSome result (λ p. p ≡ with_table prefix.now table.now) }
    {
        let mut seen = prefix.seen.again();
        let mut offer: Offer<Table, u64, HistoryRule, NoTrade> = seen.plain::<NoTrade, Table, Add>(
            table,
        );
        let mut pen = seen.no_pen();
        let old = u64::from(prefix.count) - 1;
        let found = self
            .head
            .compare_exchange::<Add, NoTrade>(old, old + 1, &mut seen, &mut offer, &mut pen);
        if found != old {
            return None;
        }
        Some(Prefix {
            count: prefix.count + 1,
            seen,
        })
    }
}

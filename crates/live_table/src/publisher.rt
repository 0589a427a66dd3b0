ghost use Rattle.std.specs.Prelude.{◌≡◌, ◌+◌, ◌<◌, ◌^◌, length, IfOk, MatchBool, MatchResult, Some};
ghost use mathlib.Core.List.{IsPrefix};
ghost use Rattle.left_right.specs.Sides.{view as known};
ghost use Rattle.live_table.specs.Publishes.{LastChooses, with_table};
ghost use Rattle.live_table.specs.inside.LiveProtocol.{Begins, IsInForce};

use crate::copy::{CopyReader, CopyWriter, Sees, Tells};
use crate::current::Current;
use crate::history::History;
use crate::live_fault::LiveFault;
use crate::prefix::Prefix;
use crate::reader::Reader;
use crate::told::Told;
use controller_table::Table;
use core::mem::replace_with;
use grid_quantiser::Point;
use std::marker::Model;
use std::sync::Wait;

/// Brings tables into force. It isn't `Drop`: `close` ends it.
///
/// Seen as the opening and the tables that it has published.
pub struct Publisher {
    pub(crate) copies: CopyWriter,
    pub(crate) history: History,
    pub(crate) prefix: Prefix,
}

impl Model for Publisher {
    ghost use Rattle.std.specs.Coded.{codes};
    ghost use Rattle.fixed_expr.specs.inside.Postfix.{expression_code};
    ghost use Rattle.std.specs.Prelude.{◌≡◌};
    ghost use Rattle.left_right.specs.Sides.{view as known};
    ghost use Rattle.live_table.specs.Publishes.{Published};
    ghost use Rattle.live_table.specs.inside.LiveProtocol.{IsInForce};

    ghost Value = { Published };

    ghost coded = { Prim.hlevel (codes, expression_code) };

    ghost view = { λ p. p.prefix };

    ghost invariant = { λ p. IsInForce p.copies.desk.shown.value.current (known p.copies.desk.place) p.prefix × (p.history ≡ p.prefix.opening) };
}

impl Publisher {
    /// How many tables it has published.
    pub fn count(&self) -> u32
        ensures { result ≡ length self.now.list }
    {
        self.prefix.count()
    }

    /// The input that the table in force applies at a state.
    pub fn choice(&self, x: &Point) -> Option<u32>
        ensures { LastChooses self.now.list x.now result }
    {
        match &self.copies.published().current {
            Some(current) => current.choice(x),
            None => None,
        }
    }

    /// Whether its list begins with all that a reader has seen. Both are of one list, so else what was seen goes on from here.
    pub fn begins_with_seen(&self, reader: &Reader) -> bool
        requires { reader.now.opening ≡ self.now.opening }
        ensures { MatchBool result (IsPrefix reader.now.seen self.now.list) (IsPrefix self.now.list reader.now.seen) }
    {
        reader.seen.begins(&self.prefix)
    }

    /// Brings a table into force. It waits for readers that still read the table before the last.
    pub fn publish<R: Wait>(&mut self, rt: &R, t: Table) -> Result<(), LiveFault>
        requires { length self.old.list + 1 < 2 ^ 32 }
        ensures list { MatchResult result (λ _. self.new ≡ with_table self.old t) (λ _. self.new ≡ self.old) }
        ensures opening { self.new.opening ≡ self.old.opening }
    {
        let Some(prefix) = self.history.add(&self.prefix, &t) else {
            return Err(LiveFault::Refused);
        };
        let current = Current::new(t, prefix.again());
        replace_with(
            &mut self.copies,
            (rt, current),
            |copies, (rt, current)| (show(copies, rt, current), ()),
        );
        self.prefix = prefix;
        Ok(())
    }

    /// What was published so far, for a reader to learn. A told has a slot until it is learnt or dropped; there is
    /// one for each reader.
    pub fn tell(&mut self) -> Result<Told, LiveFault>
        ensures told { IfOk result (λ t. t ≡ self.old) }
        ensures same { self.new ≡ self.old }
    {
        let copies = new_reader(&mut self.copies)?;
        let prefix = self.prefix.again();
        Ok(Told { copies, prefix })
    }

    /// Ends it. It waits for readers that are reading, and who asks afterwards is refused. No clause says so, since nothing
    /// is left of it and nothing is answered (tested: `run_tests`).
    pub fn close<R: Wait>(self, rt: &R) {
        let Publisher {
            copies,
            history: _,
            prefix: _,
        } = self;
        copies.take(rt);
    }
}

/// Readers find this in force from now on.
pub(crate) fn show<R: Wait>(mut copies: CopyWriter, rt: &R, current: Current) -> CopyWriter
    requires { Begins copies.desk.shown.value.current (Some current) }
    ensures { IsInForce result.desk.shown.value.current (known result.desk.place) current }
{
    let (open, mut spare) = copies.desk.open(rt);
    spare.current = Some(current);
    copies.desk = open.show_as::<Sees>(spare);
    copies
}

/// A reader of the copies that knows what the publisher knows.
fn new_reader(copies: &mut CopyWriter) -> Result<CopyReader, LiveFault>
    ensures knows { IfOk result (λ r. known r.place ≡ known copies.old.desk.place) }
    ensures shown { copies.new.desk.shown ≡ copies.old.desk.shown }
    ensures same { known copies.new.desk.place ≡ known copies.old.desk.place }
{
    let Ok(mut reader) = copies.factory().reader() else {
        return Err(LiveFault::Refused);
    };
    reader.learn::<Tells>(copies.tell::<Tells>());
    Ok(reader)
}

ghost use Rattle.std.specs.Prelude.{◌≡◌, ◌+◌, ◌^◌, ◌<◌, ◌≤◌, length, Some, None, OnOk, OnErr, IfSome, IfNone};
ghost use Rattle.base.specs.Workers.{AreWorkers};
ghost use Rattle.live_script.specs.Questions.{answer_of};
ghost use Rattle.live_run.specs.inside.Sessions.{GoOnWith};
ghost use Rattle.base.specs.declared.limits.TheConstants.{TABLES_LIMIT};

use crate::readers::Readers;
use command_line::StateNumbers;
use controller_table::{NoMemory, Table};
use core::mem::replace_with;
use live_table::LiveFault;
use std::alloc::Global;
use std::marker::Model;
use std::sync::Wait;

/// The tables of a script that are published so far, and who answers by them. It isn't `Drop`: `close` ends it.
///
/// Seen as how many tables they are, and the last.
pub(crate) struct Session {
    /// How many readers are opened with the first table.
    reader_count: u32,
    /// How many tables are published.
    count: u32,
    /// Kept, since its readers may be refused.
    table: Option<Table>,
    /// None before the first table, and from a refusal on.
    readers: Option<Readers>,
}

impl Model for Session {
    ghost use Rattle.std.specs.Coded.{codes};
    ghost use Rattle.fixed_expr.specs.inside.Postfix.{expression_code};
    ghost use Rattle.std.specs.Prelude.{◌≤◌};
    ghost use Rattle.live_run.specs.inside.Sessions.{Standing, Fits};
    ghost use Rattle.base.specs.Workers.{AreWorkers};

    ghost Value = { Standing };

    ghost coded = { Prim.hlevel (codes, expression_code) };

    ghost view = { λ s. record { count = s.count; table = s.table } };

    ghost invariant = { λ s. AreWorkers s.reader_count × Fits s.readers s.count s.table };
}

impl Session {
    /// No table yet, and so many readers with the first.
    pub(crate) fn new(reader_count: u32) -> Session
        requires { AreWorkers reader_count }
        ensures { result ≡ record { count = 0; table = None } }
    {
        Session {
            reader_count,
            count: 0,
            table: None,
            readers: None,
        }
    }

    /// How many tables are published.
    pub(crate) fn count(&self) -> u32
        ensures { result ≡ self.now.count }
    {
        self.count
    }

    /// Publishes a table.
    pub(crate) fn publish<R: Wait>(
        &mut self,
        rt: &R,
        alloc: Global,
        table: Table,
    ) -> Result<(), NoMemory>
        requires { self.old.count < TABLES_LIMIT }
        ensures { OnOk result (self.new ≡ record { count = self.old.count + 1; table = Some table }) }
    {
        let copy = table.copy(alloc)?;
        let next = NextTable {
            rt,
            alloc,
            table: copy,
            opened: opened_with(self.count, self.reader_count),
        };
        replace_with(&mut self.readers, next, bring_into_force)?;
        self.table = Some(table);
        self.count += 1;
        Ok(())
    }

    /// What the last table answers.
    pub(crate) fn answer(&mut self, question: &StateNumbers) -> Option<u32>
        ensures answer { IfSome self.old.table (λ table. result ≡ answer_of table question.now) }
        ensures same { self.new ≡ self.old }
    {
        let table = self.table.as_ref()?;
        if question.count() != table.plant().states() {
            return None;
        }
        let point = question.point();
        let answered = match &mut self.readers {
            Some(readers) => readers.choice(&point),
            None => None,
        };
        match answered {
            Some(choice) => choice,
            None => table.choice(&point),
        }
    }

    pub(crate) fn close<R: Wait>(self, rt: &R) {
        let Session {
            reader_count: _,
            count: _,
            table: _,
            readers,
        } = self;
        if let Some(readers) = readers {
            readers.close(rt);
        }
    }
}

/// How many readers are opened with a table after so many: all with the first.
fn opened_with(count: u32, reader_count: u32) -> Option<u32>
    requires { AreWorkers reader_count }
    ensures first { IfSome result (λ _. count ≡ 0) }
    ensures later { IfNone result (count ≡ 0 → ⊥) }
    ensures readers { IfSome result AreWorkers }
{
    if count == 0 { Some(reader_count) } else { None }
}

/// A table that is to come into force, and how many readers are opened with it: None where they are open.
#[derive(Drop)]
struct NextTable<'a, R> {
    rt: &'a R,
    alloc: Global,
    table: Table,
    opened: Option<u32>,
}

/// Brings a table into force among readers that answer by the one before it, or opens readers with it. The readers are None from a
/// refusal on.
fn bring_into_force<R: Wait>(
    readers: Option<Readers>,
    next: NextTable<'_, R>,
) -> (Option<Readers>, Result<(), NoMemory>)
    requires fits { IfSome readers (λ p. length p.list + 1 < 2 ^ 32) }
    requires opened { IfSome next.opened AreWorkers }
    ensures with_table { GoOnWith readers next.entry.opened next.entry.table result.0 }
    ensures refused { OnErr result.1 (result.0 ≡ None) }
{
    let NextTable {
        rt,
        alloc,
        table,
        opened,
    } = next;
    match readers {
        Some(readers) => (readers.with_table(rt, table), Ok(())),
        None => open_with(rt, alloc, table, opened),
    }
}

/// Opens so many readers with a table. None where none are to be opened, or where that is refused.
fn open_with<R: Wait>(
    rt: &R,
    alloc: Global,
    table: Table,
    opened: Option<u32>,
) -> (Option<Readers>, Result<(), NoMemory>)
    requires { IfSome opened AreWorkers }
    ensures with_table { GoOnWith None opened table result.0 }
    ensures refused { OnErr result.1 (result.0 ≡ None) }
{
    let Some(readers) = opened else {
        return (None, Ok(()));
    };
    match Readers::open(rt, alloc, table, readers) {
        Ok(readers) => (Some(readers), Ok(())),
        Err(LiveFault::Memory) => (None, Err(NoMemory)),
        Err(LiveFault::Refused) => (None, Ok(())),
    }
}

ghost use Rattle.std.specs.Prelude.{◌≡◌, ◌+◌, ◌<◌, ◌≤◌, ◌^◌, [], ◌∷◌, length, All, IfOk, IfSome, OnOk};
ghost use Rattle.base.specs.Workers.{AreWorkers};
ghost use Rattle.live_table.specs.Publishes.{LastChooses, with_table};
ghost use Rattle.live_run.specs.inside.Sessions.{InStep};

use controller_table::Table;
use grid_quantiser::Point;
use live_table::{Answered, LiveFault, Publisher, Reader, open};
use std::alloc::Global;
use std::marker::Model;
use std::sync::Wait;

/// A publisher with its readers, which answer in turn. Seen as what is published. It isn't `Drop`: `close` ends it.
pub(crate) struct Readers {
    publisher: Publisher,
    readers: Vec<Reader>,
    /// Which reader answers next, from the last to the first.
    next: usize,
}

impl Model for Readers {
    ghost use Rattle.std.specs.Coded.{codes};
    ghost use Rattle.fixed_expr.specs.inside.Postfix.{expression_code};
    ghost use Rattle.std.specs.Prelude.{All};
    ghost use Rattle.live_table.specs.Publishes.{Published};
    ghost use Rattle.live_run.specs.inside.Sessions.{InStep};

    ghost Value = { Published };

    ghost coded = { Prim.hlevel (codes, expression_code) };

    ghost view = { λ r. r.publisher };

    ghost invariant = { λ r. All (InStep r.publisher) r.readers.items };
}

impl Readers {
    /// So many readers of a first table.
    pub(crate) fn open<R: Wait>(
        rt: &R,
        alloc: Global,
        first: Table,
        readers: u32,
    ) -> Result<Readers, LiveFault>
        requires { AreWorkers readers }
        ensures { IfOk result (λ r. r.list ≡ first ∷ []) }
    {
        let (publisher, readers) = open(rt, alloc, first, readers)?;
        Ok(Readers {
            publisher,
            readers,
            next: 0,
        })
    }

    /// Brings a table into force, and tells the readers one after the other. None where that is refused.
    pub(crate) fn with_table<R: Wait>(self, rt: &R, table: Table) -> Option<Readers>
        requires { length self.list + 1 < 2 ^ 32 }
        ensures { IfSome result (λ r. r ≡ with_table self table) }
    {
        let Readers {
            mut publisher,
            mut readers,
            next,
        } = self;
        match publish(&mut publisher, &mut readers, rt, table) {
            Ok(()) => Some(Readers {
                publisher,
                readers,
                next,
            }),
            Err(_) => {
                publisher.close(rt);
                None
            }
        }
    }

    /// What the next reader answers. None where it is refused.
    pub(crate) fn choice(&mut self, x: &Point) -> Option<Option<u32>>
        ensures answer { IfSome result (λ choice. LastChooses self.old.list x.now choice) }
        ensures same { self.new ≡ self.old }
    {
        let at = self.next;
        self.next = match at {
            0 => self.readers.len().saturating_sub(1),
            at => at - 1,
        };
        let Answered { number, choice } = self.readers.get_mut(at)?.choice(x).ok()?;
        // A longer list could end with another table. No clause of a reader rules it out.
        if number == self.publisher.count() {
            Some(choice)
        } else {
            None
        }
    }

    pub(crate) fn close<R: Wait>(self, rt: &R) {
        let Readers {
            publisher,
            readers: _,
            next: _,
        } = self;
        publisher.close(rt);
    }
}

/// Publishes a table, and tells the readers.
fn publish<R: Wait>(
    publisher: &mut Publisher,
    readers: &mut [Reader],
    rt: &R,
    table: Table,
) -> Result<(), LiveFault>
    requires fits { length publisher.old.list + 1 < 2 ^ 32 }
    requires step { All (InStep publisher.old) readers.old }
    ensures published { OnOk result (publisher.new ≡ with_table publisher.old table) }
    ensures told { OnOk result (All (InStep publisher.new) readers.new) }
{
    publisher.publish(rt, table)?;
    tell_all(publisher, readers)
}

/// Tells each reader of all that is published.
fn tell_all(publisher: &mut Publisher, readers: &mut [Reader]) -> Result<(), LiveFault>
    requires opening { All (λ r. r.opening ≡ publisher.old.opening) readers.old }
    requires after { All (λ r. length r.told < length publisher.old.list) readers.old }
    ensures told { OnOk result (All (InStep publisher.old) readers.new) }
    ensures same { publisher.new ≡ publisher.old }
{
    for reader in readers.iter_mut() {
        reader.learn(publisher.tell()?);
    }
    Ok(())
}

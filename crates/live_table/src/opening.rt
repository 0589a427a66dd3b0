ghost use Rattle.std.specs.Prelude.{◌≡◌, ◌≤◌, [], ◌∷◌, vec_len, All, IfOk};
ghost use Rattle.base.specs.Workers.{AreWorkers};
ghost use Rattle.live_table.specs.Publishes.{newcomer};

use crate::copy::LiveCopy;
use crate::current::Current;
use crate::history::History;
use crate::live_fault::LiveFault;
use crate::publisher::{Publisher, show};
use crate::reader::Reader;
use controller_table::Table;
use left_right::writer::Writer;
use std::alloc::Global;
use std::sync::Wait;

/// Brings a table into force for the first time, and makes readers that have seen it. What was made before a refusal
/// is ended and dropped, the table too.
pub fn open<R: Wait>(
    rt: &R,
    alloc: Global,
    first: Table,
    readers: u32,
) -> Result<(Publisher, Vec<Reader>), LiveFault>
    requires { AreWorkers readers }
    ensures publisher { IfOk result (λ o. o.0.list ≡ first ∷ []) }
    ensures count { IfOk result (λ o. vec_len o.1 ≡ readers) }
    ensures readers { IfOk result (λ o. All (λ r. r ≡ newcomer o.0) o.1.items) }
{
    let mut publisher = publisher_of(rt, alloc, first, readers)?;
    match seat_all(&mut publisher, alloc, readers) {
        Ok(all) => Ok((publisher, all)),
        Err(fault) => {
            publisher.close(rt);
            Err(fault)
        }
    }
}

/// A publisher of one table, with two slots for each reader: its own, and one for what it is told.
fn publisher_of<R: Wait>(
    rt: &R,
    alloc: Global,
    first: Table,
    readers: u32,
) -> Result<Publisher, LiveFault>
    requires { AreWorkers readers }
    ensures { IfOk result (λ p. p.list ≡ first ∷ []) }
{
    let Ok(copies) = Writer::new(
        alloc,
        LiveCopy { current: None },
        LiveCopy { current: None },
        2 * readers as usize,
    ) else {
        return Err(LiveFault::Memory);
    };
    let (history, prefix) = History::open(&first);
    let current = Current::new(first, prefix.again());
    let copies = show(copies, rt, current);
    Ok(Publisher {
        copies,
        history,
        prefix,
    })
}

/// Readers that have seen and were told of all that was published.
fn seat_all(
    publisher: &mut Publisher,
    alloc: Global,
    readers: u32,
) -> Result<Vec<Reader>, LiveFault>
    ensures count { IfOk result (λ v. vec_len v ≡ readers) }
    ensures readers { IfOk result (λ v. All (λ r. r ≡ newcomer publisher.old) v.items) }
    ensures same { publisher.new ≡ publisher.old }
{
    let Ok(mut all) = Vec::with_capacity(alloc, readers as usize) else {
        return Err(LiveFault::Memory);
    };
    for _ in 0..readers {
        let reader = publisher.tell()?.seated();
        if all.push(reader).is_err() {
            return Err(LiveFault::Memory);
        }
    }
    Ok(all)
}

//! What is refused, though there is memory.

use crate::live::tables::{REACH, state, table_of};
use live_table::{LiveFault, Publisher, open};
use std::alloc::Global;
use std::sync::Wait;
use std::test::Fail;

/// Whether a second told, and a third once the first is dropped, are refused.
fn are_refused(publisher: &mut Publisher) -> [bool; 2] {
    let first = publisher.tell();
    let second = publisher.tell().is_err();
    drop(first);
    let third = publisher.tell().is_err();
    [second, third]
}

fn refused_of_one<R: Wait>(rt: &R, alloc: Global) -> Result<[bool; 2], LiveFault> {
    let (mut publisher, readers) = open(rt, alloc, table_of(alloc, REACH)?, 1)?;
    let refused = are_refused(&mut publisher);
    publisher.close(rt);
    drop(readers);
    Ok(refused)
}

/// One reader has two slots, its own and one for what it is told.
#[test]
fn a_told_has_a_slot_until_it_is_dropped(rt: HostRuntime) -> Result<(), Fail> {
    let refused = refused_of_one(&rt, rt.alloc())?;
    assert!(rt; refused == [true, false]);
    Ok(())
}

fn answered_when_closed<R: Wait>(rt: &R, alloc: Global) -> Result<bool, LiveFault> {
    let (publisher, mut readers) = open(rt, alloc, table_of(alloc, REACH)?, 1)?;
    publisher.close(rt);
    Ok(
        readers
            .pop()
            .is_some_and(|mut reader| reader.choice(&state(1)).is_ok()),
    )
}

#[test]
fn a_closed_publisher_s_readers_are_refused(rt: HostRuntime) -> Result<(), Fail> {
    let answered = answered_when_closed(&rt, rt.alloc())?;
    assert!(rt; !answered);
    Ok(())
}

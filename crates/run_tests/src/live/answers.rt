//! What a reader and its publisher answer.

ghost use Rattle.std.specs.Prelude.{◌≡◌, ◌<◌, length};

use crate::live::tables::{KEEP, REACH, copy_of, state, table_of};
use controller_table::Table;
use live_table::{Answered, LiveFault, Publisher, Reader, open};
use std::alloc::Global;
use std::sync::Wait;
use std::test::Fail;

/// What is answered while a second table is published and told, in order: by the reader at 1, and twice at 13; then
/// how many tables the publisher counts, what it answers at 13, and whether its list begins with what the reader has seen.
#[derive(PartialEq, Eq, Drop)]
struct Heard {
    at_first: Answered,
    told: Answered,
    later: Answered,
    count: u32,
    published: Option<u32>,
    seen_is_published: bool,
}

fn listen<R: Wait>(
    rt: &R,
    publisher: &mut Publisher,
    reader: &mut Reader,
    second: Table,
) -> Result<Heard, LiveFault>
    requires opening { reader.old.opening ≡ publisher.old.opening }
    requires fits { length publisher.old.list < 100 }
{
    let at_first = reader.choice(&state(1))?;
    publisher.publish(rt, second)?;
    reader.learn(publisher.tell()?);
    let told = reader.choice(&state(13))?;
    let later = reader.choice(&state(13))?;
    Ok(Heard {
        at_first,
        told,
        later,
        count: publisher.count(),
        published: publisher.choice(&state(13)),
        seen_is_published: publisher.begins_with_seen(reader),
    })
}

fn opened<R: Wait>(rt: &R, alloc: Global) -> Result<Heard, LiveFault> {
    let second = table_of(alloc, KEEP)?;
    let first = copy_of(alloc, &table_of(alloc, REACH)?)?;
    let (mut publisher, mut readers) = open(rt, alloc, first, 1)?;
    let heard = match readers.pop() {
        Some(mut reader) => listen(rt, &mut publisher, &mut reader, second),
        None => Err(LiveFault::Refused),
    };
    publisher.close(rt);
    heard
}

/// At 1 the first table applies input vector 1, and at 13 the second 0.
#[test]
fn a_told_reader_answers_by_the_new_table(rt: HostRuntime) -> Result<(), Fail> {
    let heard = opened(&rt, rt.alloc())?;
    let second = Answered {
        number: 2,
        choice: Some(0),
    };
    let want = Heard {
        at_first: Answered {
            number: 1,
            choice: Some(1),
        },
        told: second,
        later: second,
        count: 2,
        published: Some(0),
        seen_is_published: true,
    };
    assert!(rt; heard == want);
    Ok(())
}

/// What a reader answers at 13 that is told by its own publisher, while a told of another opening is there too.
fn listen_beside(
    publisher: &mut Publisher,
    reader: &mut Reader,
    other: &mut Publisher,
) -> Result<Answered, LiveFault>
    requires { reader.old.opening ≡ publisher.old.opening }
{
    let told = publisher.tell()?;
    let beside = other.tell()?;
    reader.learn(told);
    drop(beside);
    reader.choice(&state(13))
}

fn opened_beside<R: Wait>(rt: &R, alloc: Global) -> Result<Answered, LiveFault> {
    let (mut other, _readers) = open(rt, alloc, table_of(alloc, KEEP)?, 1)?;
    let heard = opened_with(rt, alloc, &mut other);
    other.close(rt);
    heard
}

fn opened_with<R: Wait>(
    rt: &R,
    alloc: Global,
    other: &mut Publisher,
) -> Result<Answered, LiveFault> {
    let (mut publisher, mut readers) = open(rt, alloc, table_of(alloc, REACH)?, 1)?;
    let heard = match readers.pop() {
        Some(mut reader) => listen_beside(&mut publisher, &mut reader, other),
        None => Err(LiveFault::Refused),
    };
    publisher.close(rt);
    heard
}

/// At 13 the target is reached, and nothing is applied.
#[test]
fn each_opening_has_its_own_tables(rt: HostRuntime) -> Result<(), Fail> {
    let want = Answered {
        number: 1,
        choice: None,
    };
    let heard = opened_beside(&rt, rt.alloc())?;
    assert!(rt; heard == want);
    Ok(())
}

//! Readers in threads of their own.

ghost use Rattle.std.specs.Prelude.{◌≡◌, ◌+◌, ◌<◌, length, All};
ghost use denote.Param.Send.{IsSync};

use crate::live::tables::{KEEP, REACH, state, table_of};
use crate::meeting::MANY;
use live_table::{LiveFault, Publisher, Reader, Told, open};
use std::alloc::Global;
use std::sync::Wait;
use std::test::Fail;
use std::thread::{Threads, join, map_vec, yield_now};

/// How many tables are published before the readers are told.
const TOLD: u32 = 2;

/// How many tables are published after these, while the readers ask.
const PUBLISHES: u32 = 200;

/// A reader, and what it is to be told.
#[derive(Drop)]
struct Pupil {
    reader: Reader,
    told: Told,
    ghost same: { told.opening ≡ reader.opening },
}

/// Asks until an answer comes from a table of this number, or after it. None where a number falls before that.
fn follow(reader: &mut Reader, from: u32, until: u32) -> Option<u32> {
    let mut last = from;
    for _ in 0..MANY {
        let number = reader.choice(&state(1)).ok()?.number;
        if number < last {
            return None;
        }
        last = number;
        if last >= until {
            return Some(last);
        }
        yield_now();
    }
    None
}

/// Learns what it is told, and asks from then on until the last table answers.
fn attend(pupil: Pupil) -> bool {
    let Pupil { mut reader, told } = pupil;
    reader.learn(told);
    follow(&mut reader, TOLD, TOLD + PUBLISHES) == Some(TOLD + PUBLISHES)
}

fn publish_all<R: Wait>(rt: &R, alloc: Global, publisher: &mut Publisher) -> Result<(), LiveFault>
    requires { length publisher.old.list < 100 }
{
    for _ in 0..PUBLISHES {
        publisher.publish(rt, table_of(alloc, KEEP)?)?;
    }
    Ok(())
}

/// The readers, each with a told.
fn pupils_of(
    alloc: Global,
    publisher: &mut Publisher,
    mut readers: Vec<Reader>,
) -> Result<Vec<Pupil>, LiveFault>
    requires { All (λ r. r.opening ≡ publisher.old.opening) readers.items }
    ensures { publisher.new ≡ publisher.old }
{
    let mut pupils = Vec::new(alloc);
    while let Some(reader) = readers.pop() {
        let told = publisher.tell()?;
        if pupils.push(Pupil { reader, told }).is_err() {
            return Err(LiveFault::Memory);
        }
    }
    Ok(pupils)
}

/// Whether all tables were published, and each reader answered by what it was told of or later, by the last table at
/// last, while no number fell.
fn teach<R: Threads + Wait + Sync>(
    rt: &R,
    alloc: Global,
    publisher: &mut Publisher,
    readers: Vec<Reader>,
) -> bool
    requires few { length publisher.old.list < 100 }
    requires readers { All (λ r. r.opening ≡ publisher.old.opening) readers.items }
{
    let Ok(pupils) = pupils_of(alloc, publisher, readers) else {
        return false;
    };
    let (attended, published) = join(
        rt,
        move || -> bool
            requires { IsSync R.row }
        { map_vec(rt, pupils, &attend).is_ok_and(|all| all.iter().all(|came| *came)) },
        || -> bool
            requires { length publisher.now.list < 100 }
        { publish_all(rt, alloc, publisher).is_ok() },
    );
    attended && published
}

fn taught<R: Threads + Wait + Sync>(rt: &R, alloc: Global) -> Result<bool, LiveFault> {
    let second = table_of(alloc, KEEP)?;
    let (mut publisher, readers) = open(rt, alloc, table_of(alloc, REACH)?, 4)?;
    let well = publisher.publish(rt, second).is_ok() && teach(rt, alloc, &mut publisher, readers);
    publisher.close(rt);
    Ok(well)
}

#[test]
fn numbers_never_fall(rt: HostRuntime) -> Result<(), Fail> {
    let well = taught(&rt, rt.alloc())?;
    assert!(rt; well);
    Ok(())
}

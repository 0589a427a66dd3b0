//! Lists that are made by chunks in raw memory.
ghost use Rattle.std.specs.Prelude.{◌<◌};

use raw_slots::RawList;
use std::alloc::Global;
use std::test::Fail;
use std::thread::Threads;

/// Whether a list made by chunks of `size` has at each position what its chunk put there: 3 and the position.
fn is_made<R: Threads + Sync>(rt: &R, alloc: Global, len: usize, size: usize) -> Result<bool, Fail>
    requires { 0 < size }
{
    let add_positions = |first: usize, chunk: &mut [u64]| {
        for k in 0..chunk.len() {
            chunk[k] = chunk[k].wrapping_add(first.wrapping_add(k) as u64);
        }
    };
    let list = RawList::by_chunks(rt, alloc, 3, len, size, add_positions)?;
    let numbers = list.as_slice();
    for k in 0..numbers.len() {
        if numbers[k] != (k as u64).wrapping_add(3) {
            return Ok(false);
        }
    }
    Ok(numbers.len() == len)
}

#[test]
fn a_list_is_made_of_many_chunks_the_last_one_short(rt: HostRuntime) -> Result<(), Fail> {
    assert!(rt; is_made(&rt, rt.alloc(), 100_001, 1_000)?);
    Ok(())
}

#[test]
fn a_list_is_made_of_one_chunk(rt: HostRuntime) -> Result<(), Fail> {
    assert!(rt; is_made(&rt, rt.alloc(), 5, 8)?);
    Ok(())
}

#[test]
fn a_list_of_nothing_has_no_chunk(rt: HostRuntime) -> Result<(), Fail> {
    assert!(rt; is_made(&rt, rt.alloc(), 0, 1)?);
    Ok(())
}

//! Rows that are filled slot by slot, and the block in which they lie.

ghost use Rattle.std.specs.Prelude.{◌<◌};

use edge_rows::{RowFill, Rows};
use raw_slots::Block;
use std::alloc::Global;
use std::test::Fail;
use std::thread;

fn are_rows(rows: &Rows, expected: &[&[u32]]) -> bool {
    if rows.rows() as usize != expected.len() {
        return false;
    }
    for r in 0..rows.rows() {
        if rows.row(r) != expected[r as usize] {
            return false;
        }
    }
    true
}

#[test]
fn rows_are_read_as_they_were_filled(rt: HostRuntime) -> Result<(), Fail> {
    let mut fill = RowFill::new(rt.alloc(), &[2, 0, 1])?;
    fill.put(2, 9);
    fill.put(0, 4);
    fill.put(0, 6);
    let rows = fill.finish();
    // four threads read them at once
    let same = thread::map_indices(
        &rt,
        rt.alloc(),
        4,
        &|_| are_rows(&rows, &[&[4, 6], &[], &[9]]),
    )?;
    assert!(rt; same.as_slice() == [true; 4].as_slice());
    Ok(())
}

#[test]
fn a_run_puts_one_value_in_each_of_its_rows(rt: HostRuntime) -> Result<(), Fail> {
    let mut fill = RowFill::new(rt.alloc(), &[1, 2, 2, 0])?;
    fill.put_each(0, 3, 7);
    fill.put_each(3, 0, 8);
    fill.put_each(1, 2, 9);
    assert!(rt; are_rows(&fill.finish(), &[&[7], &[7, 9], &[7, 9], &[]]));
    Ok(())
}

/// A filling of three slots, so many of them written.
fn filled_as_far_as(alloc: Global, puts: u64) -> Result<RowFill, Fail> {
    let mut fill = RowFill::new(alloc, &[2, 0, 1])?;
    if puts == 0 {
        return Ok(fill);
    }
    fill.put(2, 9);
    if puts == 1 {
        return Ok(fill);
    }
    fill.put(0, 4);
    Ok(fill)
}

#[test]
fn a_filling_is_dropped_by_another_thread(rt: HostRuntime) -> Result<(), Fail> {
    let fills = vec![in rt.alloc();
        filled_as_far_as(rt.alloc(), 0)?,
        filled_as_far_as(rt.alloc(), 1)?,
        filled_as_far_as(rt.alloc(), 2)?,
    ]?;
    let left = thread::map_vec(&rt, fills, &|fill: RowFill| fill.left())?;
    assert!(rt; left.as_slice() == [3, 2, 1].as_slice());
    Ok(())
}

/// Whether a block of some numbers of 8 bytes is had, and written to.
fn is_had(alloc: Global, numbers: usize) -> bool
    requires { 0 < numbers }
{
    let Ok(mut block) = Block::<u64>::new(alloc, numbers) else {
        return false;
    };
    block.write(0, 7);
    true
}

/// Whether so many blocks of some numbers are had, one after the other.
fn are_had_in_turn(alloc: Global, blocks: u32, numbers: usize) -> bool
    requires { 0 < numbers }
{
    for _block in 0..blocks {
        if !is_had(alloc, numbers) {
            return false;
        }
    }
    true
}

/// Blocks that weren't given back would fill the 2^47 bytes of addresses that a process has: 2^16 = 65,536 of them, of 2^31 bytes each, do.
#[test]
fn a_block_is_given_back(rt: HostRuntime) -> Result<(), Fail> {
    assert!(rt; are_had_in_turn(rt.alloc(), 70_000, 1 << 28));
    Ok(())
}

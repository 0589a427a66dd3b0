//! `RowFill`: rows of fixed lengths, each filled from its front on, in any order of rows.
ghost use Rattle.std.specs.Prelude.{◌≡◌, ◌+◌, ◌^◌, ◌<◌, ◌≤◌, length, map, sum, IfOk};
ghost use Rattle.edge_rows.specs.Rows.{with_value, with_value_each, empty_rows, HasFreeSlot, EachHasFreeSlot, slots_left};
ghost use Rattle.edge_rows.specs.inside.Layout.{starts_from};
ghost use Rattle.edge_rows.specs.inside.Slices.{AreFree, contents_with};
ghost use Rattle.base.specs.declared.limits.TheConstants.{CELLS_LIMIT, EDGES_LIMIT};

use crate::rows::Rows;
use base::NoMemory;
use raw_slots::Block;
use std::alloc::{AllocError, Global};
use std::marker::Model;

/// Rows of fixed lengths in one block, as far as they are filled.
#[derive(Drop)]
pub struct RowFill {
    block: Block<u32>,
    /// The first slot of each row, and at last the number of slots.
    starts: Vec<u32>,
    /// The first slot of each row that is not written.
    ends: Vec<u32>,
}

impl Model for RowFill {
    ghost use Rattle.edge_rows.specs.Rows.{Filling};

    ghost Value = { Filling };

    ghost use Rattle.edge_rows.specs.inside.FillFields.{filling_of, IsFilling};

    ghost view = { filling_of };

    ghost invariant = { IsFilling };
}

/// Where rows of these lengths start, and at last where they end.
fn starts_of(alloc: Global, lengths: &[u32]) -> Result<Vec<u32>, AllocError>
    requires rows { length lengths.now ≤ CELLS_LIMIT }
    requires slots { sum lengths.now ≤ EDGES_LIMIT }
    ensures { IfOk result (λ v. v.items ≡ starts_from 0 lengths.now) }
{
    let mut starts = Vec::with_capacity(alloc, lengths.len() + 1)?;
    let mut end = 0;
    starts.push(end)?;
    for length in lengths {
        end += *length;
        starts.push(end)?;
    }
    Ok(starts)
}

/// Writes a value at each of these slots, and goes on to the slot after each.
#[inline(always)]
fn write_each(block: &mut Block<u32>, ends: &mut [u32], value: u32)
    requires free { AreFree block.old ends.old value }
    requires small { length block.old < 2 ^ 32 }
    ensures block { block.new ≡ contents_with block.old ends.old value }
    ensures ends { ends.new ≡ map (λ end. end + 1) ends.old }
{
    for end in ends {
        let slot = *end;
        block.write(slot as usize, value);
        *end = slot + 1;
    }
}

impl RowFill {
    /// Rows of these lengths with nothing written. The block is not cleared.
    pub fn new(alloc: Global, lengths: &[u32]) -> Result<RowFill, NoMemory>
        requires rows { length lengths.now ≤ CELLS_LIMIT }
        requires slots { sum lengths.now ≤ EDGES_LIMIT }
        ensures rows { IfOk result (λ fill. fill.rows ≡ empty_rows lengths.now) }
        ensures lengths { IfOk result (λ fill. fill.lengths ≡ lengths.now) }
    {
        let rows = lengths.len();
        let starts = starts_of(alloc, lengths)?;
        let ends = starts[..rows].to_vec(alloc)?;
        let slots = starts[rows];
        let block = Block::new(alloc, slots as usize)?;
        Ok(RowFill {
            block,
            starts,
            ends,
        })
    }

    /// Writes the row's next slot, in constant time.
    pub fn put(&mut self, row: u32, value: u32)
        requires { HasFreeSlot self.old row }
        ensures rows { self.new.rows ≡ with_value self.old.rows row value }
        ensures lengths { self.new.lengths ≡ self.old.lengths }
    {
        let row = row as usize;
        let end = self.ends[row];
        self.block.write(end as usize, value);
        self.ends[row] = end + 1;
    }

    /// Writes the next slot of each of `count` rows from `first` on. Whether there are such rows is
    /// tested once for all of them, and where the caller names a number the slots are written with no loop.
    #[inline(always)]
    pub fn put_each(&mut self, first: u32, count: u32, value: u32)
        requires within { first + count ≤ length self.old.rows }
        requires room { EachHasFreeSlot self.old first count }
        ensures rows { self.new.rows ≡ with_value_each self.old.rows first count value }
        ensures lengths { self.new.lengths ≡ self.old.lengths }
    {
        let from = first as usize;
        let to = from + count as usize;
        write_each(&mut self.block, &mut self.ends[from..to], value);
    }

    /// How many slots are not yet written.
    pub fn left(&self) -> u64
        ensures { result ≡ slots_left self.now }
    {
        let mut left = 0;
        for row in 0..self.ends.len() {
            left += u64::from(self.starts[row + 1] - self.ends[row]);
        }
        left
    }

    /// The rows, all of whose slots are written.
    pub fn finish(self) -> Rows
        requires { slots_left self ≡ 0 }
        ensures rows { result ≡ self.rows }
        ensures full { map length result ≡ self.lengths }
    {
        let RowFill {
            block,
            starts,
            ends: _,
        } = self;
        Rows { block, starts }
    }
}

//! Where the word of a cell stands.

ghost use Rattle.std.specs.Prelude.{◌≤◌, IfOk};
ghost use Rattle.std.specs.List.Sorted.{IsNonDecreasingBy};
ghost use Rattle.base.specs.declared.limits.TheConstants.{CELLS_LIMIT};
ghost use Rattle.text_control.specs.inside.RowWords.{AreWords, cell_in};
ghost use Rattle.text_control.specs.inside.WordPositions.{IsLastUpTo, IsNarrowed, ArePositions};

use crate::row_words::one_if_up_to;
use std::alloc::{AllocError, Global};

/// So many cells have one position.
pub(crate) const CELLS_EACH: u32 = 64;

/// The position of the word for every 64th cell, from the first on and past the last.
pub(crate) fn positions_of(alloc: Global, words: &[u64], cells: u32) -> Result<Vec<u32>, AllocError>
    requires words { AreWords words.now cells }
    requires cells { cells ≤ CELLS_LIMIT }
    ensures { IfOk result (λ positions. ArePositions words.now cells positions.items) }
{
    if words.is_empty() {
        return Ok(Vec::new(alloc));
    }
    let count = cells / CELLS_EACH + 2;
    let mut positions = Vec::with_capacity(alloc, count as usize)?;
    for block in 0..count {
        positions.push(search(words, block * CELLS_EACH, 0, words.len()) as u32)?;
    }
    Ok(positions)
}

/// The position of the last word with a cell or one before it, which is among so many from a position on.
#[inline]
pub(crate) fn search(words: &[u64], cell: u32, first: usize, count: usize) -> usize
    requires rising { IsNonDecreasingBy cell_in words.now }
    requires among { IsNarrowed words.now cell first count }
    ensures { IsLastUpTo words.now cell result }
{
    let mut position = first;
    let mut size = count;
    while size > 1 {
        let half = size / 2;
        // A branch would be mispredicted at every other step.
        position += half * one_if_up_to(words[position + half], cell);
        size -= half;
    }
    position
}

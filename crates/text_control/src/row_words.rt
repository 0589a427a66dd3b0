//! A word: a cell, and the row from there on.

ghost use Rattle.std.specs.Prelude.{◌≡◌, ◌<◌, ◌≤◌, nat_le, IfSome};
ghost use Rattle.base.specs.declared.limits.TheConstants.{CELLS_LIMIT};
ghost use Rattle.base.specs.Counts.{one_if};
ghost use Rattle.text_control.specs.inside.RowWords.{row_numbered, cell_in, row_in, FitsWord};

use base::limits::VECTORS_LIMIT;
use game_core::Row;

/// A word is the cell times this, and the number of the row: 0 for none, and from 1 on for those that fit.
pub(crate) const ROW_NUMBERS: u64 = 1 << 33;

/// The word of a stretch with this row, from a cell on.
pub(crate) fn word_of(cell: u32, row: Option<Row>) -> u64
    requires cell { cell ≤ CELLS_LIMIT }
    requires row { IfSome row FitsWord }
    ensures cell { cell_in result ≡ cell }
    ensures row { row_in result ≡ row }
{
    u64::from(cell) * ROW_NUMBERS + row_number(row)
}

/// 1 where the cell of a word is this one or one before it, else 0.
#[inline]
pub(crate) fn one_if_up_to(word: u64, cell: u32) -> usize
    ensures { result ≡ one_if (nat_le (cell_in word) cell) }
{
    let past = (1 << 32) + u64::from(cell) - word / ROW_NUMBERS;
    (past / (1 << 32)) as usize
}

/// The row of a word.
#[inline]
pub(crate) fn row_in(word: u64) -> Option<Row>
    ensures { result ≡ row_in word }
{
    let number = (word % ROW_NUMBERS).checked_sub(1)?;
    let vectors = u64::from(VECTORS_LIMIT);
    Some(Row {
        rank: (number / vectors) as u32,
        input: (number % vectors) as u32,
    })
}

fn row_number(row: Option<Row>) -> u64
    requires { IfSome row FitsWord }
    ensures number { row_numbered result ≡ row }
    ensures bound { result < ROW_NUMBERS }
{
    match row {
        Some(row) => 1 + u64::from(row.rank) * u64::from(VECTORS_LIMIT) + u64::from(row.input),
        None => 0,
    }
}

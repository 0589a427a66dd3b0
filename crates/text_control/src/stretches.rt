//! The stretches of rows.

ghost use Rattle.std.specs.Prelude.{◌≡◌, ◌↔◌, ◌≤◌, ◌<◌, length, IfSome, IfOk, IsTrue};
ghost use Rattle.std.specs.List.{All};
ghost use Rattle.base.specs.declared.limits.TheConstants.{CELLS_LIMIT};
ghost use Rattle.text_control.specs.inside.RowWords.{FitsWord, AreWords, decoded_rows, GoesOn};

use crate::row_words::word_of;
use game_core::Answer;
use std::alloc::{AllocError, Global};

/// The words of rows, in a block that they fill.
pub(crate) fn words_of(alloc: Global, answer: &Answer) -> Result<Vec<u64>, AllocError>
    requires cells { length answer.now ≤ CELLS_LIMIT }
    requires rows { All (λ row. IfSome row FitsWord) answer.now }
    ensures words { IfOk result (λ words. AreWords words.items (length answer.now)) }
    ensures rows { IfOk result (λ words. decoded_rows words.items (length answer.now) ≡ answer.now) }
{
    let mut words = Vec::with_capacity(alloc, count_stretches(answer))?;
    for cell in 0..answer.cells() {
        if !goes_on(answer, cell) {
            words.push(word_of(cell, answer.row(cell)))?;
        }
    }
    Ok(words)
}

fn count_stretches(answer: &Answer) -> usize
    ensures { result ≤ length answer.now }
{
    let mut count = 0;
    for cell in 0..answer.cells() {
        if !goes_on(answer, cell) {
            count += 1;
        }
    }
    count
}

/// Whether a cell lies in the stretch of the cell before it.
fn goes_on(answer: &Answer, cell: u32) -> bool
    requires { cell < length answer.now }
    ensures { IsTrue result ↔ GoesOn answer.now cell }
{
    cell > 0 && answer.row(cell) == answer.row(cell - 1)
}

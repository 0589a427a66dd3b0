ghost use Rattle.std.specs.Prelude.{◌≡◌, ◌<◌, ◌≤◌, length, IfSome, IfOk};
ghost use Rattle.std.specs.List.{All};
ghost use Rattle.game_core.specs.Solution.{row_of};
ghost use Rattle.base.specs.declared.limits.TheConstants.{CELLS_LIMIT};
ghost use Rattle.text_control.specs.inside.RowWords.{FitsWord};

use crate::row_words::row_in;
use crate::stretches::words_of;
use crate::word_positions::{CELLS_EACH, positions_of, search};
use base::NoMemory;
use game_core::{Answer, Row};
use std::alloc::Global;
use std::marker::Model;

/// One optional row for each cell, in 8 bytes for each stretch of cells with one row or with none, and 4 for every 64
/// cells.
#[derive(Drop)]
pub(crate) struct PackedRows {
    /// One for each stretch, in the order of the cells.
    words: Vec<u64>,
    /// Between which of them the word of a cell stands.
    positions: Vec<u32>,
    cells: u32,
}

impl Model for PackedRows {
    ghost use Rattle.std.specs.Prelude.{List, Option};
    ghost use Rattle.game_core.specs.declared.game.Row.{Row};
    ghost use Rattle.text_control.specs.inside.RowWords.{decoded_rows, AreWords};
    ghost use Rattle.text_control.specs.inside.WordPositions.{ArePositions};

    ghost Value = { List (Option Row) };

    ghost view = { λ p. decoded_rows p.words.items p.cells };

    ghost invariant = { λ p. AreWords p.words.items p.cells × ArePositions p.words.items p.cells p.positions.items };
}

impl PackedRows {
    /// The rows of an answer.
    pub(crate) fn new(alloc: Global, answer: &Answer) -> Result<PackedRows, NoMemory>
        requires cells { length answer.now ≤ CELLS_LIMIT }
        requires rows { All (λ row. IfSome row FitsWord) answer.now }
        ensures { IfOk result (λ rows. rows ≡ answer.now) }
    {
        let cells = answer.cells();
        let words = words_of(alloc, answer)?;
        let positions = positions_of(alloc, &words, cells)?;
        Ok(PackedRows {
            words,
            positions,
            cells,
        })
    }

    /// None where the cell has no row.
    pub(crate) fn row(&self, cell: u32) -> Option<Row>
        requires { cell < length self.now }
        ensures { result ≡ row_of self.now cell }
    {
        let block = (cell / CELLS_EACH) as usize;
        let first = self.positions[block] as usize;
        let last = self.positions[block + 1] as usize;
        row_in(self.words[search(&self.words, cell, first, last - first + 1)])
    }
}

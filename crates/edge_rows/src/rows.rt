//! `Rows`: rows of numbers in one block, to be read.
ghost use Rattle.std.specs.Prelude.{◌≡◌, ◌<◌, length};
ghost use Rattle.edge_rows.specs.Rows.{row_at};

use raw_slots::Block;
use std::marker::Model;

/// Rows of numbers in one block. Any number of threads may read them at once.
#[derive(Drop)]
pub struct Rows {
    pub(crate) block: Block<u32>,
    pub(crate) starts: Vec<u32>,
}

impl Model for Rows {
    ghost use Rattle.std.specs.Prelude.{List, ℕ};

    ghost Value = { List (List ℕ) };

    ghost use Rattle.edge_rows.specs.inside.RowsFields.{rows_of, IsRows};

    ghost view = { rows_of };

    ghost invariant = { IsRows };
}

impl Rows {
    /// How many rows there are.
    pub fn rows(&self) -> u32
        ensures { result ≡ length self.now }
    {
        (self.starts.len() - 1) as u32
    }

    /// The row `r`.
    pub fn row(&self, r: u32) -> &[u32]
        requires { r < length self.now }
        ensures { result.now ≡ row_at self.now r }
    {
        let r = r as usize;
        let start = self.starts[r] as usize;
        let end = self.starts[r + 1] as usize;
        self.block.slice(start, end - start)
    }
}

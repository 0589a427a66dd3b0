ghost use Rattle.std.specs.Prelude.{◌≡◌, ◌<◌, ◌≤◌, None, replicate, length, slice_set, count_by, IfOk};
ghost use Rattle.std.specs.Option.{is_some};
ghost use Rattle.game_core.specs.Solution.{row_of};
ghost use Rattle.base.specs.declared.limits.TheConstants.{CELLS_LIMIT};

use crate::game::Row;
use base::NoMemory;
use std::alloc::Global;
use std::marker::Model;

/// One optional row for each cell of a game.
#[derive(Drop)]
pub struct Answer {
    rows: Vec<Option<Row>>,
}

impl Model for Answer {
    ghost use Rattle.std.specs.Prelude.{List, Option, length, ◌≤◌};
    ghost use Rattle.game_core.specs.declared.game.Row.{Row};
    ghost use Rattle.base.specs.declared.limits.TheConstants.{CELLS_LIMIT};

    ghost Value = { List (Option Row) };

    ghost view = { λ a. a.rows.items };

    ghost invariant = { λ a. length a.rows.items ≤ CELLS_LIMIT };
}

impl Answer {
    /// No row at any cell.
    pub fn blank(alloc: Global, cells: u32) -> Result<Answer, NoMemory>
        requires { cells ≤ CELLS_LIMIT }
        ensures { IfOk result (λ a. a ≡ replicate cells None) }
    {
        let rows = vec![in alloc; None; cells as usize]?;
        Ok(Answer { rows })
    }

    /// How many cells there are.
    pub fn cells(&self) -> u32
        ensures { result ≡ length self.now }
    {
        self.rows.len() as u32
    }

    /// How many cells have a row.
    pub fn row_count(&self) -> u32
        ensures { result ≡ count_by is_some self.now }
    {
        let mut count = 0;
        for cell in 0..self.cells() {
            if self.row(cell).is_some() {
                count += 1;
            }
        }
        count
    }

    /// None where the cell has no row.
    pub fn row(&self, c: u32) -> Option<Row>
        requires { c < length self.now }
        ensures { result ≡ row_of self.now c }
    {
        self.rows[c as usize]
    }

    /// Changes the row of one cell alone.
    pub fn set(&mut self, c: u32, row: Option<Row>)
        requires { c < length self.old }
        ensures { self.new ≡ slice_set self.old c row }
    {
        self.rows[c as usize] = row;
    }
}

//! The runs of rows, one after the other.

ghost use Rattle.std.specs.Prelude.{◌≡◌, ◌≢◌, ℕ, ◌+◌, ◌^◌, ◌<◌, ◌≤◌, [], ◌∷◌, length, Some, None, IfSome};
ghost use Rattle.std.specs.Option.{IfNone};
ghost use Rattle.game_core.specs.Solution.{row_of};
ghost use Rattle.row_runs.specs.declared.run.TableVersion.TheVariants.{Second};
ghost use Rattle.row_runs.specs.Runs.{runs_from, runs_left};

use crate::run::Run;
use game_core::{Answer, Row};
use std::marker::Model;

/// The longest runs of cells with one row. Seen as those that are still to come.
#[derive(Drop)]
pub struct Runs<'a> {
    answer: &'a Answer,
    /// The runs from this cell on.
    cell: u32,
}

impl<'a> Model for Runs<'a> {
    ghost use Rattle.std.specs.Prelude.{List, ◌≤◌, length};
    ghost use Rattle.row_runs.specs.declared.run.Run.{Run};
    ghost use Rattle.row_runs.specs.Runs.{runs_left};

    ghost Value = { List Run };

    ghost view = { λ r. runs_left r.cell r.answer.now };

    ghost invariant = { λ r. r.cell ≤ length r.answer.now };
}

impl<'a> Runs<'a> {
    /// All runs.
    pub fn new(answer: &'a Answer) -> Runs<'a>
        ensures { result ≡ runs_from Second 0 answer.now }
    {
        Runs { answer, cell: 0 }
    }

    /// Takes the next run away.
    pub fn next(&mut self) -> Option<Run>
        ensures run { IfSome result (λ run. self.old ≡ run ∷ self.new) }
        ensures none { IfNone result (self.old ≡ []) }
        ensures stays { IfNone result (self.new ≡ []) }
    {
        let run = next_run(self.answer, self.cell)?;
        self.cell = run.last + 1;
        Some(run)
    }
}

/// How many runs there are.
pub fn count_runs(answer: &Answer) -> u32
    ensures count { result ≡ length (runs_from Second 0 answer.now) }
    ensures bound { result ≤ length answer.now }
{
    let mut count = 0;
    let mut cell = 0;
    while let Some(run) = next_run(answer, cell) {
        count += 1;
        cell = run.last + 1;
    }
    count
}

/// The first run from a cell on.
fn next_run(answer: &Answer, from: u32) -> Option<Run>
    requires { from ≤ length answer.now }
    ensures run { IfSome result (λ r. runs_left from answer.now ≡ r ∷ runs_left (r.last + 1) answer.now) }
    ensures ahead { IfSome result (λ r. from ≤ r.last) }
    ensures last { IfSome result (λ r. r.last < length answer.now) }
    ensures fits { IfSome result (λ r. r.last + 1 < 2 ^ 32) }
    ensures none { IfNone result (runs_left from answer.now ≡ []) }
{
    let (first, row) = next_row(answer, from)?;
    let last = last_of(answer, first, row);
    Some(Run { first, last, row })
}

/// The first cell with a row from a cell on.
fn next_row(answer: &Answer, from: u32) -> Option<(u32, Row)>
    requires { from ≤ length answer.now }
    ensures ahead { IfSome result (λ r. from ≤ r.0) }
    ensures before { IfSome result (λ r. (i : ℕ) → from ≤ i → i < r.0 → row_of answer.now i ≡ None) }
    ensures cell { IfSome result (λ r. r.0 < length answer.now) }
    ensures row { IfSome result (λ r. row_of answer.now r.0 ≡ Some r.1) }
    ensures none { IfNone result ((i : ℕ) → from ≤ i → i < length answer.now → row_of answer.now i ≡ None) }
{
    for cell in from..answer.cells() {
        if let Some(row) = answer.row(cell) {
            return Some((cell, row));
        }
    }
    None
}

/// The last of the cells that follow one another with its row.
fn last_of(answer: &Answer, first: u32, row: Row) -> u32
    requires cell { first < length answer.now }
    requires row { row_of answer.now first ≡ Some row }
    ensures ahead { first ≤ result }
    ensures cell { result < length answer.now }
    ensures fits { result + 1 < 2 ^ 32 }
    ensures within { (i : ℕ) → first ≤ i → i ≤ result → row_of answer.now i ≡ Some row }
    ensures ends { result + 1 < length answer.now → row_of answer.now (result + 1) ≢ Some row }
{
    let cells = answer.cells();
    for next in first + 1..cells {
        if answer.row(next) != Some(row) {
            return next - 1;
        }
    }
    cells - 1
}

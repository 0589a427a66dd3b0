ghost use Rattle.std.specs.Prelude.{◌≡◌, ◌<◌, ◌≤◌, length};
ghost use Rattle.row_runs.specs.Runs.{IsFilled};

use crate::run::Run;
use game_core::Answer;

/// Gives the row of a run to its cells.
pub fn fill_run(answer: &mut Answer, run: Run)
    requires some { run.first ≤ run.last }
    requires last { run.last < length answer.old }
    ensures rows { IsFilled run answer.old answer.new }
    ensures length { length answer.new ≡ length answer.old }
{
    for cell in run.first..=run.last {
        answer.set(cell, Some(run.row));
    }
}

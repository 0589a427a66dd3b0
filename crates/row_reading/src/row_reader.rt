//! The lines of rows of one turn.

ghost use Rattle.std.specs.Prelude.{◌≤◌, IfOk, IfErr};
ghost use Rattle.base.specs.declared.limits.TheConstants.{CELLS_LIMIT};
ghost use Rattle.row_reading.specs.TurnSteps.{IsRefusedAt};
ghost use Rattle.row_reading.specs.inside.ReadRows.{AreRowsAt, IsRunRefused};

use crate::row_fault::RowFault;
use crate::row_rules::RowRules;
use crate::run_reader::take_run_within;
use game_core::Answer;
use row_runs::fill_run;
use std::alloc::Global;

/// The rows of so many lines at the front, and what stands after them.
pub(crate) fn take_rows(
    alloc: Global,
    rules: RowRules,
    count: u32,
    bytes: &[u8],
) -> Result<(Answer, &[u8]), RowFault>
    requires { rules.cells ≤ CELLS_LIMIT }
    ensures read { IfOk result (λ r. AreRowsAt rules count bytes.now r.0 r.1.now) }
    ensures refused { IfErr result (λ fault. IsRefusedAt (IsRunRefused rules count bytes.now) fault) }
{
    let mut answer = Answer::blank(alloc, rules.cells)?;
    let mut rest = bytes;
    let mut before = None;
    for at in 0..count {
        let Some((run, after)) = take_run_within(rules, before, rest) else {
            return Err(RowFault::Malformed { line: at + 1 });
        };
        fill_run(&mut answer, run);
        before = Some(run);
        rest = after;
    }
    Ok((answer, rest))
}

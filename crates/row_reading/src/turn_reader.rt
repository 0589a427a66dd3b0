//! The lines of all turns: for each the line before its rows, and its row lines; and the end.

ghost use Rattle.std.specs.Prelude.{◌≡◌, ◌^◌, ◌<◌, ◌≤◌, length, IfOk, IfErr};
ghost use Rattle.base.specs.declared.limits.TheConstants.{CELLS_LIMIT};
ghost use Rattle.row_reading.specs.Found.{Finds};
ghost use Rattle.row_reading.specs.RowsTexts.{AreTurnsText};
ghost use Rattle.row_reading.specs.TurnSteps.{AreTurnsRefusedAt, IsRefusedAt};
ghost use Rattle.row_reading.specs.inside.ReadTurns.{IsCountAt, IsNumberAt, IsHeadAt, IsTurnRead, IsTurnRefused};

use crate::prefix::after_prefix;
use crate::row_fault::RowFault;
use crate::row_numbers::take_number;
use crate::row_reader::take_rows;
use crate::row_rules::{TurnHead, TurnRules};
use game_core::Answer;
use std::alloc::Global;
use turn_rows::PatrolRows;

/// The rows that the bytes give for each turn.
pub fn read_turns(alloc: Global, rules: TurnRules, bytes: &[u8]) -> Result<PatrolRows, RowFault>
    requires cells { rules.rows.cells ≤ CELLS_LIMIT }
    requires size { length bytes.now < 2 ^ 31 }
    ensures read { IfOk result (λ turns. AreTurnsText rules bytes.now turns) }
    ensures refused { IfErr result (λ fault. IsRefusedAt (AreTurnsRefusedAt rules bytes.now) fault) }
{
    let mut answers = Vec::new(alloc);
    let mut rest = bytes;
    let mut lines = 0;
    for turn in 0..rules.turns {
        match take_turn(alloc, rules, turn, rest) {
            Ok((answer, count, after)) => {
                answers.push(answer).map_err(|_| RowFault::Memory)?;
                lines += 1 + count;
                rest = after;
            }
            Err(fault) => return Err(fault.after(lines)),
        }
    }
    match after_prefix(rest, b"end\n") {
        Some([]) => Ok(PatrolRows::new(answers)),
        Some(_) => Err(RowFault::Malformed { line: lines + 2 }),
        None => Err(RowFault::Malformed { line: lines + 1 }),
    }
}

/// The rows of a turn, how many lines they have, and what stands after them.
fn take_turn(
    alloc: Global,
    rules: TurnRules,
    turn: u32,
    bytes: &[u8],
) -> Result<(Answer, u32, &[u8]), RowFault>
    requires cells { rules.rows.cells ≤ CELLS_LIMIT }
    requires turn { turn < rules.turns }
    requires size { length bytes.now < 2 ^ 31 }
    ensures read { IfOk result (λ r. IsTurnRead rules turn r.1 bytes.now r.0 r.2.now) }
    ensures refused { IfErr result (λ fault. IsRefusedAt (IsTurnRefused rules turn bytes.now) fault) }
{
    let Some((count, rest)) = take_head(rules.head, turn, rules.rows.cells, bytes) else {
        return Err(RowFault::Malformed { line: 1 });
    };
    match take_rows(alloc, rules.rows, count, rest) {
        Ok((answer, after)) => Ok((answer, count, after)),
        Err(fault) => Err(fault.after(1)),
    }
}

/// The number of row lines of a turn, which is at most this, and what stands after the line before them.
fn take_head(head: TurnHead, turn: u32, most: u32, bytes: &[u8]) -> Option<(u32, &[u8])>
    ensures { Finds (λ r. (r.0, r.1.now)) (IsHeadAt head turn most bytes.now) result }
{
    match head {
        TurnHead::Count => take_count(most, bytes),
        TurnHead::Numbered => {
            let rest = after_number(turn, bytes)?;
            take_count(most, rest)
        }
    }
}

/// What stands after the number of this turn.
fn after_number(turn: u32, bytes: &[u8]) -> Option<&[u8]>
    ensures { Finds (λ r. r.now) (IsNumberAt turn bytes.now) result }
{
    let words = after_prefix(bytes, b"turn ")?;
    let (number, rest) = take_number(words, b' ')?;
    if number == turn { Some(rest) } else { None }
}

/// The number of row lines, which is at most this, and what stands after its line.
fn take_count(most: u32, bytes: &[u8]) -> Option<(u32, &[u8])>
    ensures { Finds (λ r. (r.0, r.1.now)) (IsCountAt most bytes.now) result }
{
    let number = after_prefix(bytes, b"rows ")?;
    let (count, after) = take_number(number, b'\n')?;
    if count <= most {
        Some((count, after))
    } else {
        None
    }
}

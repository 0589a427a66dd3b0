ghost use Rattle.std.specs.Prelude.{◌≡◌, ◌≤◌, ℕ, List, pos, MatchOption};
ghost use Rattle.row_reading.specs.Found.{Finds};
ghost use Rattle.live_script.specs.ScriptRefusals.{Announce};
ghost use Rattle.live_script.specs.inside.QuestionWords.{IsTableSize};
ghost use Rattle.base.specs.declared.limits.TheConstants.{TABLE_LIMIT};

use crate::ask_numbers::take_number;
use base::limits::TABLE_LIMIT;
use row_reading::after_prefix;

/// The size of the table's text that is announced at the front, and what stands after that line.
pub(crate) fn take_announced(bytes: &[u8]) -> Option<(usize, &[u8])>
    ensures { Finds (λ r. (r.0, r.1.now)) (λ (y : ℕ × List ℕ). Announce bytes.now y.0 y.1) result }
{
    let number = after_prefix(bytes, b"publish ")?;
    let (number, rest) = take_number(number)?;
    let after = after_prefix(rest, b"\n")?;
    let size = size_of(number)?;
    Some((size, after))
}

/// The size of a table's text that may be announced.
fn size_of(number: i64) -> Option<usize>
    ensures { MatchOption result ((n : ℕ) → 1 ≤ n → n ≤ TABLE_LIMIT → number ≡ pos n → ⊥) (IsTableSize number) }
{
    if 1 <= number && number <= TABLE_LIMIT as i64 {
        Some(number as usize)
    } else {
        None
    }
}

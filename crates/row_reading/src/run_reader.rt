//! The line of a run.

ghost use Rattle.std.specs.Prelude.{IsTrue, ◌↔◌};
ghost use Rattle.row_runs.specs.Runs.{MayFollow};
ghost use Rattle.row_reading.specs.RowsTexts.{IsRowWithin, IsRunWithin};
ghost use Rattle.row_reading.specs.TurnSteps.{MayStandAfter};
ghost use Rattle.row_reading.specs.Found.{Finds};
ghost use Rattle.row_reading.specs.inside.RunReading.{AreSmall, IsLastAt, IsRowAt, IsRunAt, IsNextRunAt};

use crate::prefix::after_prefix;
use crate::row_numbers::take_number;
use crate::row_rules::RowRules;
use game_core::Row;
use row_runs::{RowFormat, Run, TableVersion};

/// The run at the front that may come after the one before it, and what stands after its line.
pub(crate) fn take_run_within(
    rules: RowRules,
    before: Option<Run>,
    bytes: &[u8],
) -> Option<(Run, &[u8])>
    requires { AreSmall rules }
    ensures { Finds (λ r. (r.0, r.1.now)) (IsNextRunAt rules before bytes.now) result }
{
    let (run, after) = take_run(rules.version, rules.format, bytes)?;
    if may_follow(rules.version, before, run) && is_within(rules, run) {
        Some((run, after))
    } else {
        None
    }
}

/// The run whose line stands at the front, and what stands after it.
fn take_run(version: TableVersion, format: RowFormat, bytes: &[u8]) -> Option<(Run, &[u8])>
    ensures { Finds (λ r. (r.0, r.1.now)) (IsRunAt version format bytes.now) result }
{
    let (first, more) = take_number(bytes, b' ')?;
    let (last, words) = take_last(version, first, more)?;
    let (row, after) = take_row(format, words)?;
    Some((Run { first, last, row }, after))
}

/// The last cell of the run with this first one, and what stands after its space.
fn take_last(version: TableVersion, first: u32, words: &[u8]) -> Option<(u32, &[u8])>
    ensures { Finds (λ r. (r.0, r.1.now)) (IsLastAt version first words.now) result }
{
    match version {
        TableVersion::First => Some((first, words)),
        TableVersion::Second => take_last_from(first, words),
    }
}

fn take_last_from(first: u32, words: &[u8]) -> Option<(u32, &[u8])>
    ensures { Finds (λ r. (r.0, r.1.now)) (IsLastAt TableVersion.Second first words.now) result }
{
    let (last, after) = take_number(words, b' ')?;
    if first <= last {
        Some((last, after))
    } else {
        None
    }
}

/// The row whose words stand at the front, and what stands after their line.
fn take_row(format: RowFormat, words: &[u8]) -> Option<(Row, &[u8])>
    ensures { Finds (λ r. (r.0, r.1.now)) (IsRowAt format words.now) result }
{
    match format {
        RowFormat::InputAboveZero => take_ranked_row(words),
        RowFormat::InputAlone => take_unranked_row(words),
        RowFormat::Both => take_full_row(words),
    }
}

fn take_ranked_row(words: &[u8]) -> Option<(Row, &[u8])>
    ensures { Finds (λ r. (r.0, r.1.now)) (IsRowAt RowFormat.InputAboveZero words.now) result }
{
    let (rank, word) = take_number(words, b' ')?;
    if rank == 0 {
        let after = after_prefix(word, b"-\n")?;
        return Some((Row { rank, input: 0 }, after));
    }
    let (input, after) = take_number(word, b'\n')?;
    Some((Row { rank, input }, after))
}

fn take_unranked_row(words: &[u8]) -> Option<(Row, &[u8])>
    ensures { Finds (λ r. (r.0, r.1.now)) (IsRowAt RowFormat.InputAlone words.now) result }
{
    let word = after_prefix(words, b"- ")?;
    let (input, after) = take_number(word, b'\n')?;
    Some((Row { rank: 0, input }, after))
}

fn take_full_row(words: &[u8]) -> Option<(Row, &[u8])>
    ensures { Finds (λ r. (r.0, r.1.now)) (IsRowAt RowFormat.Both words.now) result }
{
    let (rank, word) = take_number(words, b' ')?;
    let (input, after) = take_number(word, b'\n')?;
    Some((Row { rank, input }, after))
}

/// Whether a run comes after the one before it, and in the second version doesn't go on with it.
fn may_follow(version: TableVersion, before: Option<Run>, run: Run) -> bool
    ensures { IsTrue result ↔ MayStandAfter version before run }
{
    match before {
        None => true,
        Some(before) => match version {
            TableVersion::First => before.last < run.first,
            TableVersion::Second => is_apart(before, run),
        },
    }
}

fn is_apart(before: Run, run: Run) -> bool
    ensures { IsTrue result ↔ MayFollow TableVersion.Second before run }
{
    before.last < run.first && (before.last + 1 < run.first || before.row != run.row)
}

fn is_within(rules: RowRules, run: Run) -> bool
    ensures { IsTrue result ↔ IsRunWithin rules run }
{
    run.last < rules.cells && is_row_within(rules, run.row)
}

fn is_row_within(rules: RowRules, row: Row) -> bool
    ensures { IsTrue result ↔ IsRowWithin rules row }
{
    let told = match rules.format {
        RowFormat::InputAboveZero => row.rank > 0 || row.input == 0,
        RowFormat::InputAlone => row.rank == 0,
        RowFormat::Both => true,
    };
    told && rules.least_rank <= row.rank && row.rank <= rules.most_rank && row.input < rules.vectors
}

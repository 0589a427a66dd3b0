//! Texts with rows that are read and written again, and the lines of runs.

use controller_table::{Table, TableWriter, read_table};
use game_core::{Answer, Row};
use row_runs::{RowFormat, RunLines};
use std::alloc::Global;
use std::test::Fail;
use temporal_texts::{PatrolWriter, StayWriter, read_patrol, read_stay};
use text_pieces::Pieces;

/// The carriage of three positions a step, to be kept on the line: cells 1 to 4 have equal rows.
const KEPT_BY_CELLS: &[u8] =
    b"table 1\nplant 1\nstate x 0 14 3\ninput u -3 3\nnext x = x + u\ngoal keep\nend\nrows 5\n0 - 1\n1 - 0\n2 - 0\n3 - 0\n4 - 0\nend\n";

const KEPT_BY_RUNS: &[u8] =
    b"table 2\nplant 1\nstate x 0 14 3\ninput u -3 3\nnext x = x + u\ngoal keep\nend\nrows 2\n0 0 - 1\n1 4 - 0\nend\n";

/// The corridor: the goals 3 and 4 have equal rows.
const CORRIDOR_BY_CELLS: &[u8] =
    b"table 1\nplant 1\nstate x 0 14 3\ninput u 4 7\nnoise w -1 1\nnext x = x + u + w\ntarget 9 14\ngoal reach\nend\nrows 5\n0 2 0\n1 1 1\n2 1 0\n3 0 -\n4 0 -\nend\n";

const CORRIDOR_BY_RUNS: &[u8] =
    b"table 2\nplant 1\nstate x 0 14 3\ninput u 4 7\nnoise w -1 1\nnext x = x + u + w\ntarget 9 14\ngoal reach\nend\nrows 4\n0 0 2 0\n1 1 1 1\n2 2 1 0\n3 4 0 -\nend\n";

/// The carriage may also stand still, as it does at the target.
const STAY: &[u8] =
    b"stay 1\nplant 1\nstate x 0 14 3\ninput u -3 0 3\nnext x = x + u\ntarget 12 14\ngoal reach\nend\nrows 2\n3 3 1 2\n4 4 0 1\nend\n";

/// A target at either end, and for each turn the cell beside its target.
const PATROL: &[u8] =
    b"patrol 1\nplant 1\nstate x 0 14 3\ninput u -3 3\nnext x = x + u\ntarget 0 2\ntarget 12 14\ngoal reach\nend\nturn 0 rows 1\n1 1 1 0\nturn 1 rows 1\n3 3 1 1\nend\n";

/// What comes out of pieces of at most seven bytes, so many at most.
fn text_of_pieces<P: Pieces>(alloc: Global, pieces: &mut P, most: u32) -> Result<Vec<u8>, Fail> {
    let mut text = Vec::new(alloc);
    let mut buf = [0; 7];
    for _ in 0..most {
        let count = pieces.next_piece(&mut buf);
        text.extend_from_slice(&buf[..count.min(7)])?;
    }
    Ok(text)
}

/// Whether a copy of the table that was read is written as this text.
fn is_written_as(alloc: Global, text: &[u8], runs: &[u8]) -> Result<bool, Fail> {
    let copy = read_table(alloc, text)?.copy(alloc)?;
    let written = text_of_pieces(alloc, &mut TableWriter::of(alloc, &copy)?, 40)?;
    Ok(written.as_slice() == runs)
}

#[test]
fn tables_of_both_versions_are_written_by_runs(rt: HostRuntime) -> Result<(), Fail> {
    let alloc = rt.alloc();
    assert!(rt;
        is_written_as(alloc, CORRIDOR_BY_CELLS, CORRIDOR_BY_RUNS)?
            && is_written_as(alloc, CORRIDOR_BY_RUNS, CORRIDOR_BY_RUNS)?
            && is_written_as(alloc, KEPT_BY_CELLS, KEPT_BY_RUNS)?
    );
    Ok(())
}

/// Whether the stay text that was read is written again.
fn is_stay_text_written(alloc: Global) -> Result<bool, Fail> {
    let stay = read_stay(alloc, STAY)?;
    let mut writer = StayWriter::new(alloc, stay.plant(), stay.answer())?;
    Ok(text_of_pieces(alloc, &mut writer, 40)?.as_slice() == STAY)
}

#[test]
fn a_stay_text_is_written_as_it_was_read(rt: HostRuntime) -> Result<(), Fail> {
    assert!(rt; is_stay_text_written(rt.alloc())?);
    Ok(())
}

/// Whether the patrol text that was read is written again, both turns.
fn is_patrol_text_written(alloc: Global) -> Result<bool, Fail> {
    let Ok(patrol) = read_patrol(alloc, PATROL) else {
        return Ok(false);
    };
    let mut writer = PatrolWriter::new(alloc, patrol.plant(), patrol.answers())?;
    Ok(text_of_pieces(alloc, &mut writer, 40)?.as_slice() == PATROL)
}

#[test]
fn a_patrol_text_is_written_as_it_was_read(rt: HostRuntime) -> Result<(), Fail> {
    assert!(rt; is_patrol_text_written(rt.alloc())?);
    Ok(())
}

/// Cell 0 has the input 1, cell 4 the input 0, and the position 15 lies outside.
fn is_kept_table(table: &Table, version: u32) -> bool {
    table.version() == version
        && table.rows() == 5
        && table.choice(&[1, 0, 0, 0, 0, 0]) == Some(1)
        && table.choice(&[13, 0, 0, 0, 0, 0]) == Some(0)
        && table.choice(&[15, 0, 0, 0, 0, 0]).is_none()
}

#[test]
fn a_run_tells_what_its_cells_do(rt: HostRuntime) -> Result<(), Fail> {
    let by_cells = read_table(rt.alloc(), KEPT_BY_CELLS)?;
    let by_runs = read_table(rt.alloc(), KEPT_BY_RUNS)?;
    assert!(rt; is_kept_table(&by_cells, 1) && is_kept_table(&by_runs, 2));
    Ok(())
}

/// Cells 0 and 1 with one row, 2 without, and 3 with another.
fn some_rows(alloc: Global) -> Result<Answer, Fail> {
    let mut rows = Answer::blank(alloc, 4)?;
    rows.set(0, Some(Row { rank: 0, input: 3 }));
    rows.set(1, Some(Row { rank: 0, input: 3 }));
    rows.set(3, Some(Row { rank: 12, input: 0 }));
    Ok(rows)
}

fn are_lines(alloc: Global, format: RowFormat, lines: &[u8]) -> Result<bool, Fail> {
    let rows = some_rows(alloc)?;
    let written = text_of_pieces(alloc, &mut RunLines::new(format, &rows), 10)?;
    Ok(written.as_slice() == lines)
}

/// A dash at rank 0, a number there, and no ranks.
#[test]
fn formats_give_rows_in_three_ways(rt: HostRuntime) -> Result<(), Fail> {
    let alloc = rt.alloc();
    assert!(rt;
        are_lines(alloc, RowFormat::InputAboveZero, b"0 1 0 -\n3 3 12 0\n")?
            && are_lines(alloc, RowFormat::Both, b"0 1 0 3\n3 3 12 0\n")?
            && are_lines(alloc, RowFormat::InputAlone, b"0 1 - 3\n3 3 - 0\n")?
    );
    Ok(())
}
